//! Laws of data and of stimuli, each the contract of a function that does nothing.

ghost use Rattle.std.specs.Prelude.{◌≡◌, ◌⊎◌, ℕ, List};
ghost use Rattle.av_tree.specs.Values.{Assignment};
ghost use Rattle.av_flat.specs.Trees.{FlatSystem};
ghost use Rattle.av_flat.specs.Kept.{IsKept};
ghost use Rattle.av_flat.specs.Chained.{IsChained};
ghost use Rattle.av_net.specs.declared.netlist.Module.{Module};
ghost use Rattle.av_net.specs.Sound.{IsSound};
ghost use Rattle.av_data.specs.declared.fault.DataFault.{DataFault};
ghost use Rattle.av_data.specs.declared.stimulus.Stimulus.{Stimulus};
ghost use Rattle.av_data.specs.Data.{SpellsInputs, IsInputFault};
ghost use Rattle.av_data.specs.Stimuli.{SpellsStimulus, IsStimulusFault};

/// A law on data for a kept or chained system: lines have at most one first fault, and none where they spell a map.
pub fn data_have_one_fault()
    ensures one { (s : FlatSystem)
        → IsKept s ⊎ IsChained s → (first : ℕ) (bytes : List ℕ) (some other : DataFault)
        → IsInputFault s first bytes some → IsInputFault s first bytes other → some ≡ other }
    ensures none { (s : FlatSystem)
        → IsKept s ⊎ IsChained s → (first : ℕ) (bytes : List ℕ) (x : Assignment) (fault : DataFault)
        → SpellsInputs s bytes x → IsInputFault s first bytes fault → ⊥ }
{}

/// A law on stimuli for a sound module: lines have at most one first fault, and none where they spell a stimulus.
pub fn stimuli_have_one_fault()
    ensures one { (m : Module) → IsSound m → (first : ℕ) (bytes : List ℕ) (some other : DataFault)
        → IsStimulusFault m.inputs first bytes some
        → IsStimulusFault m.inputs first bytes other → some ≡ other }
    ensures none { (m : Module) → IsSound m
        → (first : ℕ) (bytes : List ℕ) (stimulus : Stimulus) (fault : DataFault)
        → SpellsStimulus m.inputs bytes stimulus → IsStimulusFault m.inputs first bytes fault → ⊥ }
{}
