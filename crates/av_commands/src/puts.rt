//! Texts that are put into a sink.

ghost use Rattle.std.specs.Prelude.{◌≡◌, ◌++◌, ℕ};
ghost use Rattle.av_net.specs.Designs.{IsSoundPlan};
ghost use Rattle.av_net.specs.PlanTexts.{text2};
ghost use Rattle.av_flat.specs.Legal.{IsLegal};
ghost use Rattle.av_data.specs.Schedules.{schedule_text};
ghost use Rattle.av_data.specs.Tables.{table_text};
ghost use Rattle.av_space.specs.Arrays.{IsArrayOf};
ghost use Rattle.av_vread.specs.declared.fault.VFault.TheVariants as verilog_fault;
ghost use Rattle.av_data.specs.declared.fault.DataFault.TheVariants as data_fault;
ghost use Rattle.av_compile.specs.declared.refusal.Refusal.TheVariants as alpha_refusal;
ghost use Rattle.av_best.specs.declared.fault.BestFault.TheVariants as best_fault;
ghost use Rattle.av_wave.specs.declared.fault.WaveFault.TheVariants as wave_fault;
ghost use Rattle.av_commands.specs.Refusals.{refusal_line, verilog_reason, data_reason};
ghost use Rattle.av_commands.specs.AlphaRefusals.{alpha_reason};
ghost use Rattle.av_commands.specs.Bests.{best_reason, cycles_line};
ghost use Rattle.av_commands.specs.Waves.{wave_reason};
ghost use Rattle.av_commands.specs.Written.{IsPut};

use crate::alpha_refusals::{write_alpha_refusal, write_best_refusal};
use crate::bests::write_least_schedule;
use crate::refusals::{write_data_refusal, write_verilog_refusal, write_wave_refusal};
use crate::status::Status;
use av_base::{Sink, write_all};
use av_best::BestFault;
use av_compile::{MappedSystem, Refusal};
use av_data::{DataFault, write_schedule, write_table};
use av_flat::Timed;
use av_net::Plan;
use av_vread::VFault;
use av_vtext::write_plan;
use av_wave::WaveFault;

/// Adds the text. The status is the one wanted, or that of a fault of the sink.
pub fn put<K: Sink>(sink: &mut K, text: &str, wanted: Status) -> Status
    ensures { IsPut (K.state sink.old) (K.state sink.new) text.now wanted result }
{
    match write_all(sink, text.as_bytes()) {
        Ok(()) => wanted,
        Err(_) => Status::WriteFault,
    }
}

/// Adds the text of the plan.
pub(crate) fn put_plan<K: Sink>(sink: &mut K, plan: Plan) -> Status
    requires { IsSoundPlan plan }
    ensures { IsPut (K.state sink.old) (K.state sink.new) (text2 plan) Status.Done result }
{
    match write_plan(&plan, sink) {
        Ok(()) => Status::Done,
        Err(_) => Status::WriteFault,
    }
}

/// Adds the lines of the schedule.
pub(crate) fn put_schedule<K: Sink>(sink: &mut K, timed: Timed) -> Status
    requires { IsLegal timed }
    ensures { IsPut (K.state sink.old) (K.state sink.new) (schedule_text timed) Status.Done result }
{
    match write_schedule(&timed, sink) {
        Ok(()) => Status::Done,
        Err(_) => Status::WriteFault,
    }
}

/// Adds the lines of the array.
pub(crate) fn put_table<K: Sink>(sink: &mut K, array: MappedSystem) -> Status
    requires { IsArrayOf array.timed array.cells }
    ensures { IsPut (K.state sink.old)
        (K.state sink.new) (table_text array.timed array.cells) Status.Done result }
{
    match write_table(&array.timed, &array.cells, sink) {
        Ok(()) => Status::Done,
        Err(_) => Status::WriteFault,
    }
}

/// Adds the line of the refusal of a design text. Out of memory has no line: the status tells it.
pub(crate) fn put_verilog_refusal<K: Sink>(sink: &mut K, fault: &VFault) -> Status
    ensures memory { fault.now ≡ verilog_fault.Memory
        → (result ≡ Status.Memory) × ((K.state sink.new).held ≡ (K.state sink.old).held) }
    ensures refused { (fault.now ≡ verilog_fault.Memory → ⊥) → IsPut (K.state sink.old)
        (K.state sink.new) (refusal_line (verilog_reason fault.now)) Status.Refused result }
{
    match fault {
        VFault::Memory => Status::Memory,
        _ => match write_verilog_refusal(fault, sink) {
            Ok(()) => Status::Refused,
            Err(_) => Status::WriteFault,
        },
    }
}

/// Adds the line of the refusal of a stimulus or of data. Out of memory has no line: the status tells it.
pub(crate) fn put_data_refusal<K: Sink>(sink: &mut K, fault: &DataFault) -> Status
    ensures memory { fault.now ≡ data_fault.Memory
        → (result ≡ Status.Memory) × ((K.state sink.new).held ≡ (K.state sink.old).held) }
    ensures refused { (fault.now ≡ data_fault.Memory → ⊥) → IsPut (K.state sink.old)
        (K.state sink.new) (refusal_line (data_reason fault.now)) Status.Refused result }
{
    match fault {
        DataFault::Memory => Status::Memory,
        _ => match write_data_refusal(fault, sink) {
            Ok(()) => Status::Refused,
            Err(_) => Status::WriteFault,
        },
    }
}

// Adds the line of a refusal that the caller owns.
fn put_refusal<K: Sink>(sink: &mut K, refusal: &Refusal) -> Status
    ensures memory { refusal.now ≡ alpha_refusal.Memory
        → (result ≡ Status.Memory) × ((K.state sink.new).held ≡ (K.state sink.old).held) }
    ensures refused { (refusal.now ≡ alpha_refusal.Memory → ⊥) → IsPut (K.state sink.old)
        (K.state sink.new) (refusal_line (alpha_reason refusal.now)) Status.Refused result }
{
    match refusal {
        Refusal::Memory => Status::Memory,
        _ => match write_alpha_refusal(refusal, sink) {
            Ok(()) => Status::Refused,
            Err(_) => Status::WriteFault,
        },
    }
}

/// Adds the line of the refusal of an Alpha text. Out of memory has no line: the status tells it.
pub(crate) fn put_alpha_refusal<K: Sink>(sink: &mut K, refusal: Refusal) -> Status
    ensures memory { refusal ≡ alpha_refusal.Memory
        → (result ≡ Status.Memory) × ((K.state sink.new).held ≡ (K.state sink.old).held) }
    ensures refused { (refusal ≡ alpha_refusal.Memory → ⊥) → IsPut (K.state sink.old)
        (K.state sink.new) (refusal_line (alpha_reason refusal)) Status.Refused result }
{
    put_refusal(sink, &refusal)
}

/// Adds the lines of the schedule, and its length.
pub(crate) fn put_least_schedule<K: Sink>(sink: &mut K, timed: &Timed, cycles: u64) -> Status
    requires { IsLegal timed.now }
    ensures { IsPut (K.state sink.old)
        (K.state sink.new) (schedule_text timed.now ++ cycles_line cycles) Status.Done result }
{
    match write_least_schedule(timed, cycles, sink) {
        Ok(()) => Status::Done,
        Err(_) => Status::WriteFault,
    }
}

/// Adds the line that says why there is no least schedule. Out of memory has no line: the status tells it.
pub(crate) fn put_best_refusal<K: Sink>(sink: &mut K, fault: &BestFault) -> Status
    ensures memory { fault.now ≡ best_fault.Memory
        → (result ≡ Status.Memory) × ((K.state sink.new).held ≡ (K.state sink.old).held) }
    ensures refused { (fault.now ≡ best_fault.Memory → ⊥) → IsPut (K.state sink.old)
        (K.state sink.new) (refusal_line (best_reason fault.now)) Status.Refused result }
{
    match fault {
        BestFault::Memory => Status::Memory,
        _ => match write_best_refusal(fault, sink) {
            Ok(()) => Status::Refused,
            Err(_) => Status::WriteFault,
        },
    }
}

/// Adds the line of the refusal of a dump. Out of memory has no line: the status tells it.
pub(crate) fn put_wave_refusal<K: Sink>(sink: &mut K, fault: &WaveFault) -> Status
    ensures memory { fault.now ≡ wave_fault.Memory
        → (result ≡ Status.Memory) × ((K.state sink.new).held ≡ (K.state sink.old).held) }
    ensures refused { (line : ℕ) → fault.now ≡ wave_fault.WaveSyntax line → IsPut (K.state sink.old)
        (K.state sink.new) (refusal_line (wave_reason line)) Status.Refused result }
{
    match fault {
        WaveFault::Memory => Status::Memory,
        WaveFault::WaveSyntax(line) => match write_wave_refusal(*line, sink) {
            Ok(()) => Status::Refused,
            Err(_) => Status::WriteFault,
        },
    }
}
