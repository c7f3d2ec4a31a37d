// Lines. Where a text runs past the end of the buffer, that part of it is not written. Each function answers
// how long its text is. By `fmt::Write` no clause could say that a place doesn't wrap, so lines are no Display.
ghost use Rattle.std.specs.Prelude.{◌≤◌};
ghost use Rattle.mixture.specs.Answers.{answer_of};
ghost use Rattle.strip.specs.Text.{Put, decimal, value_text, line};

use mixture::{Answer, Outcome};

pub fn put(out: &mut [u8], at: usize, text: &[u8]) -> usize
    ensures { Put out.old at text.now result out.new }
{
    if at < out.len() {
        let n = text.len().min(out.len() - at);
        out[at..at + n].copy_from_slice(&text[..n]);
    }
    text.len()
}

fn put_number(out: &mut [u8], at: usize, n: u64) -> usize
    ensures { Put out.old at (decimal n) result out.new × (result ≤ 20) }
{
    let mut text = [0u8; 20];
    let k = io::decimal(n, &mut text);
    put(out, at, &text[..k])
}

fn put_value(out: &mut [u8], at: usize, v: f64) -> usize
    ensures { Put out.old at (value_text v) result out.new × (result ≤ 16) }
{
    if v != v {
        return put(out, at, b"nan");
    }
    let mut text = [0u8; 16];
    let k = io::hex(f64::to_bits(v), 16, &mut text);
    put(out, at, &text[..k])
}

// The line of an answer, at the start of a buffer.
fn write_line(text: &mut [u8], a: Answer) -> usize
    ensures { Put text.old 0 (line (answer_of a)) result text.new × (result ≤ 40) }
{
    match a {
        Ok(Outcome::Done) => put(text, 0, b"ok\n"),
        Ok(Outcome::Value(v, count)) => {
            let p = put_value(text, 0, v);
            let q = p + put(text, p, b" ");
            let e = q + put_number(text, q, count as u64);
            e + put(text, e, b"\n")
        }
        Err(refusal) => {
            let k = u8::from(refusal);
            let p = put(text, 0, b"refused ");
            let q = p + put_number(text, p, k as u64);
            q + put(text, q, b"\n")
        }
    }
}

pub fn put_answer(out: &mut [u8], at: usize, a: Answer) -> usize
    ensures { Put out.old at (line (answer_of a)) result out.new × (result ≤ 40) }
{
    let mut text = [0u8; 40];
    let k = write_line(&mut text, a);
    put(out, at, &text[..k])
}
