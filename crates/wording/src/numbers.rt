// Numbers from text.
ghost use Rattle.std.specs.Prelude.{◌≡◌};
ghost use Rattle.wording.specs.FromText.{from_text_of};

// Why a text is read as no number.
#[derive(Clone, Copy, Debug, PartialEq, Eq)]
pub enum NumberError {
    Over,
    Wrong,
}

// The number that a text says, in digits to a base, if it is at most `most`; a digit's character is that of 0 plus the digit.
pub fn number_of(text: &[u8], base: u8, most: u32) -> Result<u64, NumberError>
    ensures { result ≡ from_text_of text.now base most }
{
    if text.is_empty() {
        return Err(NumberError::Wrong);
    }
    let top = u64::from(most);
    let mut n: u64 = 0;
    for c in text {
        if *c < b'0' || base <= *c - b'0' {
            return Err(NumberError::Wrong);
        }
        let digit = u64::from(*c - b'0');
        // A number past `most` is held one past it.
        n = (n * u64::from(base) + digit).min(top + 1);
    }
    if top < n {
        return Err(NumberError::Over);
    }
    Ok(n)
}
