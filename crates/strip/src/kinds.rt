// The kinds of records.
ghost use Rattle.std.specs.Prelude.{◌≡◌, ◌&&◌, ◌||◌, eqb, ltb};
ghost use Rattle.strip.specs.Calls.{setting_of};
ghost use Rattle.strip.specs.Steps.Run.{setting_number, kind_number, NamesSetting, NamesKind, HasContent};

use crate::words::Broken;
use arithmetic::TdParam;
use mixture::Setting;
use models::Model;
use models::model::{has_groups, size_of};

#[derive(Clone, Copy, Debug, PartialEq, Eq)]
pub enum SettingKind {
    Temperature,
    Entry,
    TdEntry,
    Size,
    Count,
}

#[derive(Clone, Copy)]
pub enum Kind {
    Load(Model),
    Set(SettingKind),
    Fractions,
    Query,
}

// What follows a head word: so many floats, and so many lists.
#[derive(Clone, Copy, Debug, PartialEq, Eq)]
pub struct Content {
    pub floats: usize,
    pub lists: usize,
}

fn floats_alone(floats: usize) -> Content
    ensures { (result.floats ≡ floats) × (result.lists ≡ 0) }
{
    Content { floats, lists: 0 }
}

impl SettingKind {
    // The setting, by a record's first floats: a td entry takes five, another setting one.
    pub fn setting(self, i: usize, j: usize, five: TdParam) -> Setting
        ensures { result ≡ setting_of (setting_number self) i j five }
    {
        match self {
            SettingKind::Temperature => Setting::Temperature(five.a),
            SettingKind::Entry => Setting::Entry(i, j, five.a),
            SettingKind::TdEntry => Setting::TdEntry(i, j, five),
            SettingKind::Size => Setting::Size(i, j, five.a),
            SettingKind::Count => Setting::Count(i, j, five.a),
        }
    }

    // A temperature has no i and j.
    fn content(self, i: u8, j: u8) -> Option<Content>
        ensures { HasContent (setting_number self) i j result }
    {
        match self {
            SettingKind::Temperature => (i == 0 && j == 0).then_some(floats_alone(1)),
            SettingKind::TdEntry => Some(floats_alone(5)),
            SettingKind::Entry | SettingKind::Size | SettingKind::Count => Some(floats_alone(1)),
        }
    }
}

impl TryFrom<usize> for SettingKind {
    type Error = Broken;

    ghost try_from_gives = { NamesSetting };

    fn try_from(kind: usize) -> Result<SettingKind, Broken> {
        match kind {
            5 => Ok(SettingKind::Temperature),
            7 => Ok(SettingKind::Entry),
            8 => Ok(SettingKind::TdEntry),
            9 => Ok(SettingKind::Size),
            10 => Ok(SettingKind::Count),
            _ => Err(Broken),
        }
    }
}

// A record begins with none but these numbers.
impl TryFrom<usize> for Kind {
    type Error = Broken;

    ghost try_from_gives = { NamesKind };

    fn try_from(kind: usize) -> Result<Kind, Broken> {
        match kind {
            1 => Ok(Kind::Load(Model::Wilson)),
            2 => Ok(Kind::Load(Model::Uniquac)),
            3 => Ok(Kind::Load(Model::Nrtl)),
            4 => Ok(Kind::Load(Model::Unifac)),
            6 => Ok(Kind::Fractions),
            11 => Ok(Kind::Query),
            _ => Ok(Kind::Set(SettingKind::try_from(kind)?)),
        }
    }
}

// The setting of a kind's number; a number that is no setting's makes a count.
pub fn setting_of(kind: usize, i: usize, j: usize, five: TdParam) -> Setting
    ensures { result ≡ setting_of kind i j five }
{
    SettingKind::try_from(kind)
        .unwrap_or(SettingKind::Count)
        .setting(i, j, five)
}

// A query's j is at most 2, and with j = 2 it has no i.
fn is_query(i: u8, j: u8) -> bool
    ensures { result ≡ (ltb j 2 || (eqb j 2 && eqb i 0)) }
{
    j < 2 || (j == 2 && i == 0)
}

impl Kind {
    // What follows the head word, where i and j are as the kind has them.
    pub fn content(self, i: u8, j: u8) -> Option<Content>
        ensures { HasContent (kind_number self) i j result }
    {
        let n = i as usize;
        let m = j as usize;
        match self {
            Kind::Load(model) => {
                if has_groups(model) {
                    return Some(Content {
                        floats: m + m + m * m * 5,
                        lists: n,
                    });
                }
                (j == 0).then_some(floats_alone(size_of(model, n)))
            }
            Kind::Set(kind) => kind.content(i, j),
            Kind::Fractions => (j == 0).then_some(floats_alone(n)),
            Kind::Query => is_query(i, j).then_some(floats_alone(0)),
        }
    }
}
