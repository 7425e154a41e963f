// The names of syllables, four letters each, by their operator numbers in the table of 4,096.
ghost use Rattle.std.specs.Prelude.{◌≡◌};
ghost use Rattle.wording.specs.Names.{name_of};

// The name of an operator number: a blank ends one of three letters, and four dashes stand for none.
// Any number may be asked for, so it is no operator of the table.
pub fn name_of(number: u8) -> [u8; 4]
    ensures { result ≡ name_of number }
{
    NAMES.get(usize::from(number)).copied().unwrap_or(*b"----")
}

// In the order of the operator numbers.
const NAMES: [[u8; 4]; 40] = [
    *b"----", *b"ADD ", *b"SUB ", *b"MUL ", *b"IDV ", *b"RDV ", *b"GTR ", *b"GEQ ", *b"EQL ",
    *b"LEQ ", *b"LSS ", *b"NEQ ", *b"LND ", *b"LOR ", *b"LQV ", *b"LNG ", *b"MOP ", *b"MDS ",
    *b"SSP ", *b"SSN ", *b"CHS ", *b"TOP ", *b"XCH ", *b"DUP ", *b"DEL ", *b"NOP ", *b"LOD ",
    *b"STD ", *b"SND ", *b"INX ", *b"BFW ", *b"BBW ", *b"BFC ", *b"BBC ", *b"MKS ", *b"XIT ",
    *b"COM ", *b"LITC", *b"OPDC", *b"DESC",
];
