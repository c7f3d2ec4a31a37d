// The memory that a script's calls are lent, with the head that goes with it, and a record's call on it.
use crate::digest::Digest;
use crate::records::{CELLS_ROOM, FLOATS_ROOM, Kind, MARKS_ROOM, ROWS_ROOM, Record, VALUES_ROOM};
use arithmetic::TdParam;
use arithmetic::bytes::fill_floats;
use mixture::fractions::fractions;
use mixture::head::{no_head, padded};
use mixture::load::load;
use mixture::open::open;
use mixture::query::query;
use mixture::set::set;
use mixture::{Answer, Head, Outcome, Reply, Setting};
use models::Data;
use models::answers::quantity_of;
use models::limits::{COMPONENTS, PLACES};
use models::model::model_numbered;

// A head's record: where T and the tolerance stand among the floats, behind the fractions, and in the first
// row, behind the lengths, whether T and whether the fractions are set.
const T_AT: usize = COMPONENTS;

const TOLERANCE_AT: usize = COMPONENTS + 1;

const HAS_T_AT: usize = COMPONENTS;

const HAS_X_AT: usize = COMPONENTS + 1;

// A record's rows.
#[derive(Clone, Copy)]
struct Rows<'a> {
    first: &'a [u8],
    second: &'a [u8],
    floats: &'a [f64],
}

// The item at a place of a row, and 0 past its end.
fn item<T: Copy + Default>(row: &[T], k: usize) -> T {
    row.get(k).copied().unwrap_or(T::default())
}

// The first items of a row, with 0 in the places past it.
fn items<T: Copy + Default, const N: usize>(row: &[T]) -> [T; N] {
    padded(&row[..row.len().min(N)], T::default())
}

// The record's a is the case, b is i, and c is j or which of the sizes.
fn setting_of(r: Record, floats: &[f64]) -> Setting {
    let v = item(floats, 0);
    match r.a {
        0 => Setting::Temperature(v),
        1 => Setting::Entry(r.b, r.c, v),
        2 => Setting::TdEntry(
            r.b,
            r.c,
            TdParam {
                a: v,
                b: item(floats, 1),
                c: item(floats, 2),
                d: item(floats, 3),
                e: item(floats, 4),
            },
        ),
        3 => Setting::Size(r.b, r.c, v),
        4 => Setting::Count(r.b, r.c, v),
        _ => Setting::Tolerance(v),
    }
}

// The record's a is the model, b is n, and c is ng.
fn data_of<'a>(r: Record, rows: Rows<'a>) -> Data<'a> {
    Data {
        model: model_numbered(r.a),
        n: r.b,
        ng: r.c,
        lens: rows.first,
        groups: rows.second,
        values: rows.floats,
    }
}

// Any head: the lengths, and whether T and the fractions are set; the groups; the fractions, T and the
// tolerance.
fn head_of(r: Record, rows: Rows) -> Head {
    Head {
        model: (r.a & 0xff) as u8,
        n: r.b,
        ng: r.c,
        lens: items(rows.first),
        groups: items(rows.second),
        t: item(rows.floats, T_AT),
        x: items(rows.floats),
        has_t: item(rows.first, HAS_T_AT) == 1,
        has_x: item(rows.first, HAS_X_AT) == 1,
        tolerance: item(rows.floats, TOLERANCE_AT),
    }
}

// The call on the places that a record lends. It takes the memory's fields, since no two parts of fields can
// be lent at once from behind one reference to the whole.
fn call(
    r: Record,
    rows: Rows,
    values: &mut [f64; VALUES_ROOM],
    cells: &mut [f64; CELLS_ROOM],
    marks: &mut [u8; MARKS_ROOM],
    head: Head,
) -> Reply {
    let values = &mut values[..r.values];
    let cells = &mut cells[..r.cells];
    let marks = &mut marks[..r.marks];
    match r.kind {
        Kind::Open => open(values, cells, marks, head),
        Kind::Load => load(values, cells, marks, head, data_of(r, rows)),
        Kind::Setting => set(values, cells, marks, head, setting_of(r, rows.floats)),
        Kind::Fractions => fractions(values, cells, marks, head, rows.floats),
        Kind::Query => query(values, cells, marks, head, quantity_of(r.a, r.b)),
        Kind::Head => Reply {
            head: head_of(r, rows),
            answer: Ok(Outcome::Done),
        },
        Kind::Memory => Reply {
            head,
            answer: Ok(Outcome::Done),
        },
    }
}

#[derive(Drop)]
pub struct Memory {
    values: [f64; VALUES_ROOM],
    cells: [f64; CELLS_ROOM],
    marks: [u8; MARKS_ROOM],
    head: Head,
}

impl Memory {
    // All 0, without a model.
    pub fn new() -> Memory {
        Memory {
            values: [0.0; VALUES_ROOM],
            cells: [0.0; CELLS_ROOM],
            marks: [0; MARKS_ROOM],
            head: no_head(),
        }
    }

    // The rows in place of the memory: marks, values and cells.
    fn put(&mut self, rows: &[u8; ROWS_ROOM]) {
        self.marks.copy_from_slice(&rows[..MARKS_ROOM]);
        fill_floats(VALUES_ROOM, rows, MARKS_ROOM, &mut self.values);
        fill_floats(
            CELLS_ROOM,
            rows,
            MARKS_ROOM + 8 * VALUES_ROOM,
            &mut self.cells,
        );
    }

    // What a record and its rows bring about.
    pub fn answer(&mut self, r: Record, rows: &[u8; ROWS_ROOM]) -> Answer {
        if r.kind == Kind::Memory {
            self.put(rows);
            return Ok(Outcome::Done);
        }
        let floats_at = r.first + r.second;
        let mut floats = [0.0; FLOATS_ROOM];
        fill_floats(r.floats, rows, floats_at, &mut floats);
        let lent = Rows {
            first: &rows[..r.first],
            second: &rows[r.first..floats_at],
            floats: &floats[..r.floats],
        };
        let reply = call(
            r,
            lent,
            &mut self.values,
            &mut self.cells,
            &mut self.marks,
            self.head,
        );
        self.head = reply.head;
        reply.answer
    }

    // A digest of the whole memory and the head.
    pub fn digest(&self) -> Digest {
        Digest::new()
            .with_all(&self.values)
            .with_all(&self.cells)
            .with_all(&self.marks)
            .with_head(self.head)
    }
}
