// The call that a record makes, on a mixture.
ghost use Rattle.std.specs.Prelude.{◌≡◌, true};
ghost use Rattle.mixture.specs.Answers.{answer_of};
ghost use Rattle.mixture.specs.Memory.{left, after};
ghost use Rattle.mixture.specs.History.{after_call};
ghost use Rattle.strip.specs.Calls.{call_of};
ghost use Rattle.strip.specs.Steps.Run.{rec_of, fits, made, lent};

use crate::kinds::{Kind, SettingKind};
use crate::lists::fill_lists;
use crate::records::Record;
use arithmetic::Refusal;
use arithmetic::bytes::fill_floats;
use mixture::faults::{CELLS, MARKS, VALUES};
use mixture::{Answer, Head, Reply};
use models::answers::quantity_of;
use models::parameters::five_at;
use models::{Data, Model};

// A mixture with memory of its own.
#[derive(Drop)]
pub struct Mixture {
    pub values: [f64; VALUES],
    pub cells: [f64; CELLS],
    pub marks: [u8; MARKS],
    pub head: Head,
}

impl Mixture {
    // Makes a record's load. A strip has at most 8,191 floats and, of 12 bytes each, 5,461 kinds 13: the buffers
    // hold those of any load.
    fn load(&mut self, s: &[u8], r: Record, model: Model) -> Reply
        requires fits { fits s.now (rec_of r) ≡ true }
        requires kind { r.kind ≡ Kind.Load model }
        ensures { left (lent self.new) result
            ≡ after_call (lent self.old) self.old.head (call_of s.now (rec_of r)) }
    {
        let k = r.content.floats;
        let mut given = [0.0; 8192];
        fill_floats(k, s, r.body, &mut given);
        let mut lens = [0u8; 256];
        let mut groups = [0u8; 5461];
        let at = r.body + 8 * k;
        let lists = r.content.lists;
        let met = fill_lists(s, at, lists, &mut lens, &mut groups, &mut given[k..]);
        let data = Data {
            model,
            n: r.i as usize,
            ng: r.j as usize,
            lens: &lens[..met.lists],
            groups: &groups[..met.groups],
            values: &given[..k + met.groups],
        };
        mixture::load::load(
            &mut self.values,
            &self.cells,
            &mut self.marks,
            self.head,
            data,
        )
    }

    // A kind above 4 has at most 255 floats.
    fn set(&mut self, s: &[u8], r: Record, kind: SettingKind) -> Reply
        requires fits { fits s.now (rec_of r) ≡ true }
        requires kind { r.kind ≡ Kind.Set kind }
        ensures { left (lent self.new) result
            ≡ after_call (lent self.old) self.old.head (call_of s.now (rec_of r)) }
    {
        let mut given = [0.0; 256];
        fill_floats(r.content.floats, s, r.body, &mut given);
        let setting = kind.setting(r.i as usize, r.j as usize, five_at(&given, 0));
        mixture::set::set(
            &mut self.values,
            &self.cells,
            &mut self.marks,
            self.head,
            setting,
        )
    }

    fn fractions(&self, s: &[u8], r: Record) -> Reply
        requires fits { fits s.now (rec_of r) ≡ true }
        requires kind { r.kind ≡ Kind.Fractions }
        ensures { left (lent self.now) result
            ≡ after_call (lent self.now) self.now.head (call_of s.now (rec_of r)) }
    {
        let k = r.content.floats;
        let mut given = [0.0; 256];
        fill_floats(k, s, r.body, &mut given);
        mixture::fractions::fractions(
            &self.values,
            &self.cells,
            &self.marks,
            self.head,
            &given[..k],
        )
    }

    // Makes the record's call; one that doesn't fit is declined with 2.
    pub fn make(&mut self, s: &[u8], r: Record) -> Answer
        ensures { after (lent self.new) self.new.head (answer_of result)
            ≡ made s.now (rec_of r) (lent self.old) self.old.head (call_of s.now (rec_of r)) }
    {
        if !r.fits(s) {
            return Err(Refusal::Shape);
        }
        let reply = match r.kind {
            Kind::Load(model) => self.load(s, r, model),
            Kind::Set(kind) => self.set(s, r, kind),
            Kind::Fractions => self.fractions(s, r),
            Kind::Query => mixture::query::query(
                &self.values,
                &mut self.cells,
                &mut self.marks,
                self.head,
                quantity_of(r.j as usize, r.i as usize),
            ),
        };
        self.head = reply.head;
        reply.answer
    }
}
