//! A value change dump, read line by line.

ghost use Rattle.std.specs.Prelude.{◌≡◌, ◌<◌, ◌≤◌, ℕ, length, drop, take, Err, IfOk};
ghost use Rattle.av_wave.specs.Waves.{Recording, IsWave};
ghost use Rattle.av_wave.specs.Dumps.{dump_text};
ghost use Rattle.av_wave.specs.Fronts.{IsWaveFault, GivesWave, RefusesWave};
ghost use Rattle.av_wave.specs.inner.Lines.{first_line};
ghost use Rattle.av_wave.specs.declared.fault.WaveFault.TheVariants.{WaveSyntax as Syntax};

use crate::fault::WaveFault;
use crate::stage::Stage;
use crate::wave::Wave;
use av_base::line_len;
use av_table::NameSet;
use std::alloc::Global;

/// Reads a value change dump of one scope, with wires and the values 0 and 1 alone.
pub fn read_wave(alloc: Global, bytes: &[u8]) -> Result<Wave, WaveFault>
    requires { length bytes.now < 4294967295 }

    // What is read is the wave's text, and a wave's text is read, unless memory runs out.
    ensures wave { IfOk result IsWave }
    ensures found { IfOk result (λ wave. bytes.now ≡ dump_text wave) }
    ensures only { (wave : Recording)
        → IsWave wave → bytes.now ≡ dump_text wave → GivesWave result wave }

    // Each fault is that of the first faulty line, and where a line is faulty its fault is answered.
    ensures fault { (line : ℕ) → result ≡ Err (Syntax line) → IsWaveFault bytes.now line }
    ensures refused { (line : ℕ) → IsWaveFault bytes.now line → RefusesWave result line }
{
    let mut stage = Stage::Timescale;
    let mut names = NameSet::new(alloc);
    let mut line = 1;
    let mut at = 0;
    while at < bytes.len() {
        let text = first_line(&bytes[at..]);
        let Some(next) = stage.take(alloc, text, &mut names)? else {
            return Err(WaveFault::WaveSyntax(line));
        };
        stage = next;
        at += text.len();
        line += 1;
    }
    match stage.wave() {
        Some(wave) => Ok(wave),
        None => Err(WaveFault::WaveSyntax(line)),
    }
}

// The first line of a text, with the line feed that ends it.
fn first_line(text: &[u8]) -> &[u8]
    ensures { result.now ≡ first_line text.now }
{
    let len = line_len(text);
    if len < text.len() {
        &text[..len + 1]
    } else {
        text
    }
}
