// A digest of 64 bits: each place changes it, by its bits and by where it stands.
use arithmetic::bytes::bits_of;
use mixture::Head;
use std::fmt;

// What a digest takes up as a word.
pub trait Word: Copy {
    fn word(self) -> u64;
}

impl Word for f64 {
    fn word(self) -> u64 {
        bits_of(self)
    }
}

impl Word for u8 {
    fn word(self) -> u64 {
        u64::from(self)
    }
}

impl Word for usize {
    fn word(self) -> u64 {
        self as u64
    }
}

impl Word for bool {
    fn word(self) -> u64 {
        u64::from(self)
    }
}

#[derive(Clone, Copy)]
pub struct Digest(u64);

impl Digest {
    // Of nothing.
    pub fn new() -> Digest {
        Digest(0)
    }

    // One word more. Another word gives another digest, and so does another digest before.
    fn with<W: Word>(self, w: W) -> Digest {
        let a = self.0 ^ w.word();
        let b = a.wrapping_add(a << 21);
        Digest(b ^ (b >> 29))
    }

    pub fn with_all<W: Word>(self, row: &[W]) -> Digest {
        row.iter().fold(self, |digest, w| digest.with(*w))
    }

    // The head's fields in their order.
    pub fn with_head(self, head: Head) -> Digest {
        self.with(head.model)
            .with(head.n)
            .with(head.ng)
            .with_all(&head.lens)
            .with_all(&head.groups)
            .with(head.t)
            .with_all(&head.x)
            .with(head.has_t)
            .with(head.has_x)
            .with(head.tolerance)
    }
}

impl fmt::Display for Digest {
    fn fmt<W: fmt::Write>(&self, f: &mut fmt::Formatter<W>) -> fmt::Result {
        write!(f, "{:016x}", self.0)
    }
}
