// The run of a strip for a host in Rust or C.
ghost use Rattle.std.specs.Prelude.{◌≤◌};
ghost use Rattle.strip.specs.Text.{Put};
ghost use Rattle.strip.specs.Run.{transcript, most_text};

use strip::run::run;

#[unsafe(no_mangle)]
pub extern "C" fn kiltgrit_run(strip: &[u8], out: &mut [u8]) -> usize
    ensures { Put out.old 0 (transcript strip.now) result out.new
        × (result ≤ most_text) }
{
    run(strip, out)
}
