//! How far a dump has been read.

ghost use Rattle.std.specs.Prelude.{◌≡◌, ◌+◌, IfOk, IfSome, IfNone, Ok};
ghost use Rattle.av_net.specs.Names.{names_of};
ghost use Rattle.av_wave.specs.Waves.{Recording};
ghost use Rattle.av_wave.specs.Dumps.{upscope_line, time_line};
ghost use Rattle.av_wave.specs.declared.stage.Stage.TheVariants as stage;
ghost use Rattle.av_wave.specs.inner.Stages.{Turns, EndsAs, Knows};

use crate::forms::{begins_cycle, declared, scope_name, told_by};
use crate::recorder::Recorder;
use crate::wave::Wave;
use av_base::{List, Memory, Name};
use av_net::Port;
use av_table::NameSet;
use std::alloc::Global;
use std::marker::Model;

/// The name of the module, and the ports that are declared so far.
#[derive(Drop)]
pub(crate) struct DumpHeader {
    name: Name,
    ports: List<Port>,
}

impl Model for DumpHeader {
    ghost use Rattle.av_wave.specs.inner.Heads.{Head, IsHead};

    ghost Value = { Head };

    ghost view = { λ h. record { name = h.name; ports = h.ports } };

    ghost invariant = { λ h. IsHead (record { name = h.name; ports = h.ports }) };
}

/// What may stand on the next line.
#[derive(Drop)]
pub(crate) enum Stage {
    Timescale,
    Scope,
    Ports(DumpHeader),
    Definitions(DumpHeader),
    Start(DumpHeader),
    Cycles(Recorder),
}

impl Stage {
    /// Takes a line. `None` is answered where it may not stand here. The names are those of the ports that are declared
    /// so far.
    pub(crate) fn take<'a>(
        self,
        alloc: Global,
        line: &'a [u8],
        names: &mut NameSet<'a>,
    ) -> Result<Option<Stage>, Memory>
        requires { Knows self names.old }
        ensures turns { Turns self line.now result }
        ensures names { IfOk result (λ next. IfSome next (λ stage. Knows stage names.new)) }
    {
        match self {
            Stage::Timescale => Ok(after_timescale(line)),
            Stage::Scope => open(alloc, line),
            Stage::Ports(header) => header.take(alloc, line, names),
            Stage::Definitions(header) => Ok(after_definitions(header, line)),
            Stage::Start(header) => header.start(alloc, line),
            Stage::Cycles(recorder) => go_on(recorder, line),
        }
    }

    /// The wave, where the text may end here.
    pub(crate) fn wave(self) -> Option<Wave>
        ensures some { IfSome result (λ wave. EndsAs self wave) }
        ensures none { IfNone result ((wave : Recording) → EndsAs self wave → ⊥) }
    {
        match self {
            Stage::Cycles(recorder) => {
                if recorder.is_open() {
                    Some(recorder.wave())
                } else {
                    None
                }
            }
            _ => None,
        }
    }
}

fn after_timescale(line: &[u8]) -> Option<Stage>
    ensures { Turns stage.Timescale line.now (Ok result) }
{
    if line == b"$timescale 1ns $end\n".as_slice() {
        Some(Stage::Scope)
    } else {
        None
    }
}

// Takes the line that opens the scope.
fn open(alloc: Global, line: &[u8]) -> Result<Option<Stage>, Memory>
    ensures { Turns stage.Scope line.now result }
{
    let Some(name) = scope_name(line) else {
        return Ok(None);
    };
    Ok(Some(Stage::Ports(DumpHeader {
        name: Name::from_ascii(alloc, name)?,
        ports: List::new(alloc),
    })))
}

impl DumpHeader {
    // Takes the line of a port, or the one behind the last port.
    fn take<'a>(
        self,
        alloc: Global,
        line: &'a [u8],
        names: &mut NameSet<'a>,
    ) -> Result<Option<Stage>, Memory>
        requires { names.old ≡ names_of self.ports }
        ensures turns { Turns (stage.Ports self) line.now result }
        ensures names { IfOk result (λ next. IfSome next (λ stage. Knows stage names.new)) }
    {
        if line == b"$upscope $end\n".as_slice() {
            return Ok(Some(Stage::Definitions(self)));
        }
        self.declare(alloc, line, names)
    }

    // Takes the line of a port.
    fn declare<'a>(
        mut self,
        alloc: Global,
        line: &'a [u8],
        names: &mut NameSet<'a>,
    ) -> Result<Option<Stage>, Memory>
        requires other { line.now ≡ upscope_line → ⊥ }
        requires names { names.old ≡ names_of self.ports }
        ensures turns { Turns (stage.Ports self) line.now result }
        ensures names { IfOk result (λ next. IfSome next (λ stage. Knows stage names.new)) }
    {
        let Some(found) = declared(line, self.ports.len() as u32) else {
            return Ok(None);
        };
        if !names.insert(found.name)? {
            return Ok(None);
        }
        self.ports.push(Port {
            name: Name::from_ascii(alloc, found.name)?,
            width: found.width,
        })?;
        Ok(Some(Stage::Ports(self)))
    }

    // Takes the line that begins the first cycle.
    fn start(self, alloc: Global, line: &[u8]) -> Result<Option<Stage>, Memory>
        ensures { Turns (stage.Start self) line.now result }
    {
        if begins_cycle(line, 0) {
            let recorder = Recorder::new(alloc, self.name, self.ports)?;
            Ok(Some(Stage::Cycles(recorder)))
        } else {
            Ok(None)
        }
    }
}

fn after_definitions(header: DumpHeader, line: &[u8]) -> Option<Stage>
    ensures { Turns (stage.Definitions header) line.now (Ok result) }
{
    if line == b"$enddefinitions $end\n".as_slice() {
        Some(Stage::Start(header))
    } else {
        None
    }
}

// Takes the line that begins the next cycle, or the line of a change.
fn go_on(mut recorder: Recorder, line: &[u8]) -> Result<Option<Stage>, Memory>
    ensures { Turns (stage.Cycles recorder) line.now result }
{
    if begins_cycle(line, recorder.cycle() + 1) {
        if recorder.may_end() {
            recorder.end_cycle();
            return Ok(Some(Stage::Cycles(recorder)));
        }
        return Ok(None);
    }
    tell(recorder, line)
}

// Takes the line of a change.
fn tell(mut recorder: Recorder, line: &[u8]) -> Result<Option<Stage>, Memory>
    requires { line.now ≡ time_line (recorder.cycle + 1) → ⊥ }
    ensures { Turns (stage.Cycles recorder) line.now result }
{
    let Some(told) = told_by(line, recorder.ports()) else {
        return Ok(None);
    };
    if !recorder.may_change(told.port, told.value) {
        return Ok(None);
    }
    recorder.change(told.port, told.value)?;
    Ok(Some(Stage::Cycles(recorder)))
}
