ghost use Rattle.std.specs.Prelude.{◌≡◌, ◌+◌, ◌<◌, ◌⊎◌, length, IfOk, Err};
ghost use Rattle.av_net.specs.Sound.{IsSound};
ghost use Rattle.av_data.specs.declared.fault.DataFault.{DataFault as Fault};
ghost use Rattle.av_data.specs.declared.fault.DataFault.TheVariants.{Memory as OutOfMemory};
ghost use Rattle.av_data.specs.declared.stimulus.Stimulus.{Stimulus as Lines};
ghost use Rattle.av_data.specs.Stimuli.{SpellsStimulus, IsStimulusFault, GivesStimulus, GivesFault};

use crate::DataFault;
use crate::reader::read;
use av_base::List;
use av_net::Module;
use std::alloc::Global;

/// A value that an input port carries in a cycle. The port is identified by its place in the module's `inputs`.
#[derive(Clone, Copy, Debug, PartialEq, Eq)]
pub struct Given {
    pub cycle: u32,
    pub port: u32,
    pub value: u64,
}

/// So many cycles, and what input ports carry in them. The values stand in ascending order of cycle and
/// then port; a port carries 0 in each cycle for which there is none.
#[derive(Debug, Drop)]
pub struct Stimulus {
    pub cycles: u32,
    pub values: List<Given>,
}

/// Reads a stimulus for a module from lines of which the first has this number.
///
/// The first line that is neither empty nor a comment is `cycles N`, and each later one
/// `at CYCLE PORT VALUE`. The first faulty line decides, and on one line the first of `DataSyntax`,
/// `DataUnknown`, `DataOutside` and `DataTwice`. `DataMissing` never comes.
pub fn read_stimulus(
    alloc: Global,
    bytes: &[u8],
    first_line: u32,
    of: &Module,
) -> Result<Stimulus, DataFault>
    requires lines { first_line + length bytes.now < 4294967295 }
    requires sound { IsSound of.now }

    // What is read is spelled so, and what is spelled so is read, unless memory runs out.
    ensures found { IfOk result (λ s. SpellsStimulus of.now.inputs bytes.now s) }
    ensures only { (s : Lines) → SpellsStimulus of.now.inputs bytes.now s → GivesStimulus result s }

    // Each fault is that of the first faulty line, and where a line is faulty its fault is answered.
    ensures fault { (f : Fault) → result ≡ Err f
        → (f ≡ OutOfMemory) ⊎ IsStimulusFault of.now.inputs first_line bytes.now f }
    ensures refused { (f : Fault) → IsStimulusFault of.now.inputs first_line bytes.now f
        → GivesFault result f }
{
    // So few ports that 32 bits number them.
    let _most = of.inputs.len();
    read(alloc, bytes, first_line, of.inputs.as_slice())
}
