// What is asked, set and loaded, by C's numbers. A number that means nothing becomes an index or an n that no
// model has, so that the call declines it in that argument's own place.
#![tactic(auto, unfolding(crate::specs::Arguments::known_n, crate::specs::Arguments::quantity_asked, crate::specs::Arguments::setting_of))]

ghost use Rattle.std.specs.Prelude.{◌≡◌};
ghost use Rattle.models.specs.Model.{given as data_given};
ghost use Rattle.kiltgrit.specs.Arguments.{known_n, load_of, is_kind, setting_of, quantity_asked};

use arithmetic::TdParam;
use mixture::Setting;
use models::answers::quantity_of;
use models::model::model_numbered;
use models::{Data, Model, Quantity};

// An index that no model has.
const NO_INDEX: usize = 18446744073709551615;

// The kind is the strip's: 5 temperature, 7 entry, 8 td entry, 9 size, 10 count; and 14 tolerance.
#[repr(C)]
#[derive(Clone, Copy)]
pub struct CSetting {
    pub v: [f64; 5],
    pub i: usize,
    pub j: usize,
    pub kind: u32,
    pub unused: u32,
}

pub fn quantity_asked(asked: u32, i: usize) -> Quantity
    ensures { result ≡ quantity_asked asked i }
{
    if asked < 3 {
        return quantity_of(asked as usize, i);
    }
    Quantity::LnGamma(NO_INDEX)
}

// n, where there is such a model and the form, which is kept for later, is 0; else 0.
pub fn known_n(model: u32, form: u32, n: usize) -> usize
    ensures { result ≡ known_n model form n }
{
    if Model::try_from(model as usize).is_err() {
        return 0;
    }
    if form != 0 {
        return 0;
    }
    n
}

// What a load or a plain call is given.
pub fn data_of<'a>(
    model: u32,
    form: u32,
    n: usize,
    ng: usize,
    lens: &'a [u8],
    groups: &'a [u8],
    values: &'a [f64],
) -> Data<'a>
    ensures { data_given result ≡ load_of model form n ng lens.now groups.now values.now }
{
    Data {
        model: model_numbered(model as usize),
        n: known_n(model, form, n),
        ng,
        lens,
        groups,
        values,
    }
}

// Whether a kind is a setting's.
fn is_kind(kind: u32) -> bool
    ensures { result ≡ is_kind kind }
{
    match kind {
        5 => true,
        7 => true,
        8 => true,
        9 => true,
        10 => true,
        14 => true,
        _ => false,
    }
}

pub fn setting_of(s: CSetting) -> Setting
    ensures { result ≡ setting_of s }
{
    if is_kind(s.kind) {
        let v = s.v;
        if s.kind == 14 {
            return Setting::Tolerance(v[0]);
        }
        let five = TdParam {
            a: v[0],
            b: v[1],
            c: v[2],
            d: v[3],
            e: v[4],
        };
        return strip::setting_of(s.kind as usize, s.i, s.j, five);
    }
    Setting::Size(NO_INDEX, 0, 0.0)
}
