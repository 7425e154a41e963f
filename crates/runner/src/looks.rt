// What a file is: its kind, its permissions and its owner.
use std::fs::File;
use std::os::unix::fs::MetadataExt;

// A file, or none, to be given these permissions and this owner, where there is one to give.
#[derive(Clone, Copy, Default)]
pub struct Look {
    pub regular: bool,
    pub mode: u32,
    pub owner: Option<u32>,
    pub group: Option<u32>,
}

impl Look {
    // The look of an open file; that of no file where it cannot be had.
    pub fn of(file: &File) -> Look {
        match file.metadata() {
            Ok(state) => Look {
                regular: state.is_file(),
                mode: state.mode() & 0o777,
                owner: Some(state.uid()),
                group: Some(state.gid()),
            },
            Err(_) => Look::default(),
        }
    }

    // The look of a new file: the permissions of this one, and whoever makes it for its owner.
    pub fn renewed(self) -> Look {
        Look {
            regular: true,
            owner: None,
            group: None,
            ..self
        }
    }
}
