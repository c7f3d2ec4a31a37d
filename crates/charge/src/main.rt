// Reads a strip from standard input and writes its text to standard output.
#![tactic(auto)]

ghost use Rattle.std.specs.Prelude.{◌≡◌, ◌≤◌, length, take};
ghost use Rattle.strip.specs.Run.{transcript};

use reading::read_full;
use std::io;

// No text is longer.
const MOST_TEXT: usize = 10 * strip::MOST_BYTES + 7;

// The whole text of a strip, at the start of a buffer that holds any, and how long it is.
fn text(strip: &[u8], out: &mut [u8; MOST_TEXT]) -> usize
    ensures in_bounds { result ≤ length out.new }
    ensures prefix_length { result ≡ length (take result out.new) }
    ensures text { take result out.new ≡ transcript strip.now }
{
    strip::run::run(strip, out)
}

fn main(rt: HostRuntime) -> io::Result<()> {
    let mut strip = [0u8; strip::MOST_BYTES + 1];
    let n = read_full(&mut rt.stdin(), &mut strip)?;
    let mut out = [0u8; MOST_TEXT];
    let k = text(&strip[..n], &mut out);
    rt.write_all(&out[..k])
}
