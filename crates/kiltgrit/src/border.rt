// The head, the reply, the answer and what the panel shows as C has them.
#![tactic(auto, unfolding(crate::specs::Border::head_of, crate::specs::Border::value_or, crate::specs::Border::answer_of, crate::specs::Border::count_of, crate::specs::Border::c_shown, arithmetic::specs::Refusals::answer_of, arithmetic::specs::Refusals::number_of, mixture::specs::Answers::answer_of, mixture::specs::Answers::outcome_of, mixture::specs::Answers::number_of, mixture::specs::Answers::value_of))]

ghost use Rattle.std.specs.Prelude.{◌≡◌};
ghost use Rattle.arithmetic.specs.Refusals.{number, number_of as number_in_words, answer_of as plain_in_words};
ghost use Rattle.mixture.specs.Answers.{answer_of as in_words};
ghost use Rattle.kiltgrit.specs.Border.{head_of, c_head, reply_of, answer_of, value_or, c_shown};

use arithmetic::Refusal;
use mixture::answers::Outcome;
use mixture::{Answer, Head, Reply};
use models::limits::{COMPONENTS, PLACES};

// The fields stand as Head's own do, each at the same offset. A flag is set where its byte is 1, so that no
// bits of a caller's are out of range. Form and changes are kept for later: written 0 and not read, as the
// unused bytes.
#[repr(C)]
#[derive(Clone, Copy)]
pub struct CHead {
    pub model: u8,
    pub form: u8,
    pub unused: [u8; 6],
    pub n: usize,
    pub ng: usize,
    pub lens: [u8; COMPONENTS],
    pub groups: [u8; PLACES],
    pub changes: u32,
    pub t: f64,
    pub x: [f64; COMPONENTS],
    pub has_t: u8,
    pub has_x: u8,
    pub also_unused: [u8; 6],
    pub tolerance: f64,
}

// Document 01's number of the refusal, 0 for none; renewed is kept for later.
#[repr(C)]
#[derive(Clone, Copy)]
pub struct CReply {
    pub head: CHead,
    pub value: f64,
    pub cells_worked: usize,
    pub renewed: usize,
    pub refused: u32,
    pub unused: u32,
}

// The same for a call that leaves the head.
#[repr(C)]
#[derive(Clone, Copy)]
pub struct CAnswer {
    pub value: f64,
    pub cells_worked: usize,
    pub renewed: usize,
    pub refused: u32,
    pub unused: u32,
}

// Of a plain call.
#[repr(C)]
#[derive(Clone, Copy)]
pub struct CValue {
    pub value: f64,
    pub refused: u32,
    pub unused: u32,
}

// Of millionths: document 02's number of the refusal, 0 for none.
#[repr(C)]
#[derive(Clone, Copy)]
pub struct CShown {
    pub millionths: i64,
    pub refused: u32,
    pub unused: u32,
}

impl From<CHead> for Head {
    ghost from_gives = { λ c h. h ≡ head_of c };

    fn from(c: CHead) -> Head {
        let lens = c.lens;
        let groups = c.groups;
        let x = c.x;
        Head {
            model: c.model,
            n: c.n,
            ng: c.ng,
            lens,
            groups,
            t: c.t,
            x,
            has_t: c.has_t == 1,
            has_x: c.has_x == 1,
            tolerance: c.tolerance,
        }
    }
}

impl From<Head> for CHead {
    ghost from_gives = { λ h c. c ≡ c_head h };

    fn from(h: Head) -> CHead {
        let lens = h.lens;
        let groups = h.groups;
        let x = h.x;
        CHead {
            model: h.model,
            form: 0,
            unused: [0; 6],
            n: h.n,
            ng: h.ng,
            lens,
            groups,
            changes: 0,
            t: h.t,
            x,
            has_t: u8::from(h.has_t),
            has_x: u8::from(h.has_x),
            also_unused: [0; 6],
            tolerance: h.tolerance,
        }
    }
}

// Document 01's and 02's number of a refusal.
pub fn c_refusal(refusal: Refusal) -> u32
    ensures { result ≡ number refusal }
{
    u32::from(u8::from(refusal))
}

// The number of what a call is refused for, 0 for nothing.
pub fn c_number(a: Result<(), Refusal>) -> u32
    ensures { result ≡ number_in_words a }
{
    match a {
        Ok(()) => 0,
        Err(refusal) => c_refusal(refusal),
    }
}

impl From<Answer> for CAnswer {
    ghost from_gives = { λ a c. c ≡ answer_of (in_words a) };

    fn from(a: Answer) -> CAnswer {
        match a {
            Ok(Outcome::Done) => CAnswer {
                value: 0.0,
                cells_worked: 0,
                renewed: 0,
                refused: 0,
                unused: 0,
            },
            Ok(Outcome::Value(value, count)) => CAnswer {
                value,
                cells_worked: count,
                renewed: 0,
                refused: 0,
                unused: 0,
            },
            Err(refusal) => CAnswer {
                value: 0.0,
                cells_worked: 0,
                renewed: 0,
                refused: c_refusal(refusal),
                unused: 0,
            },
        }
    }
}

// A refusal gives the head back as it came.
pub fn reply_of(came: CHead, p: Reply) -> CReply
    ensures { result ≡ reply_of came p.head (in_words p.answer) }
{
    let told = CAnswer::from(p.answer);
    if told.refused != 0 {
        return CReply {
            head: came,
            value: 0.0,
            cells_worked: 0,
            renewed: 0,
            refused: told.refused,
            unused: 0,
        };
    }
    CReply {
        head: CHead::from(p.head),
        value: told.value,
        cells_worked: told.cells_worked,
        renewed: 0,
        refused: 0,
        unused: 0,
    }
}

impl From<models::Answer> for CValue {
    ghost from_gives = { λ a c. c ≡ value_or (plain_in_words a) };

    fn from(a: models::Answer) -> CValue {
        match a {
            Ok(v) => CValue {
                value: v,
                refused: 0,
                unused: 0,
            },
            Err(fault) => CValue {
                value: 0.0,
                refused: c_refusal(fault),
                unused: 0,
            },
        }
    }
}

impl From<Result<i64, Refusal>> for CShown {
    ghost from_gives = { λ a c. c ≡ c_shown (plain_in_words a) };

    fn from(a: Result<i64, Refusal>) -> CShown {
        match a {
            Ok(n) => CShown {
                millionths: n,
                refused: 0,
                unused: 0,
            },
            Err(unshown) => CShown {
                millionths: 0,
                refused: c_refusal(unshown),
                unused: 0,
            },
        }
    }
}
