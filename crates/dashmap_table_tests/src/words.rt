//! Keys that compare without the case of their letters.

/// Three letters that are compared without their case.
#[derive(Drop)]
#[derive_where(PartialEq, Eq, Hash, Debug)]
pub struct Word {
    folded: [u8; 3],
    #[derive_where(skip)]
    pub shown: [u8; 3],
}

pub fn spelled(shown: &[u8; 3]) -> Word {
    Word {
        folded: [
            shown[0].to_ascii_lowercase(),
            shown[1].to_ascii_lowercase(),
            shown[2].to_ascii_lowercase(),
        ],
        shown: *shown,
    }
}
