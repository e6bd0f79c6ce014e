//! The input ports of a kind, and what its lanes take from them.

ghost use Rattle.std.specs.Prelude.{◌≡◌, ◌<◌, ◌≤◌, ◌+◌, ◌*◌, ◌^◌, ◌++◌, suc, [], length, IfOk, OnOk};
ghost use Rattle.av_net.specs.declared.operation.Operand.TheVariants as operand;
ghost use Rattle.av_kinds.specs.Names.{numbered};
ghost use Rattle.av_kinds.specs.Counters.{counter_width};
ghost use Rattle.av_kinds.specs.inner.Interfaces.{ports_by, bounds_by, options_by, tap_by, guards_by, window_ports};

use crate::choice::{Arm, Datapath, Guard, GuardedDatapath, LaneDatapaths, Tap};
use crate::counter::counter_width;
use crate::naming::numbered;
use crate::program::Inlet;
use crate::shape::{LaneShape, ModeShape, SiteShape};
use av_base::{List, Memory, Name, Width};
use av_net::{Operand, Port};
use std::alloc::Global;

/// The ports so far, and how many of each letter there are.
#[derive(Drop)]
pub(crate) struct Interface {
    pub(crate) ports: List<Port>,
    pub(crate) inputs: usize,
    pub(crate) taps: usize,
    pub(crate) bounds: usize,
}

// The operand of the name with a letter and a number.
fn named(alloc: Global, letter: &str, number: usize) -> Result<Operand, Memory>
    ensures { IfOk result (λ a. a ≡ operand.Name (numbered letter.now number)) }
{
    Ok(Operand::Name(numbered(alloc, letter, number as u128)?))
}

// So many ports with a letter, with numbers from one on.
fn add_ports(
    alloc: Global,
    letter: &str,
    width: Width,
    first: usize,
    count: usize,
    ports: &mut List<Port>,
) -> Result<(), Memory>
    ensures { OnOk result (ports.new
        ≡ ports.old ++ ports_by (numbered letter.now) width first count) }
{
    for k in 0..count {
        ports.push(Port {
            name: numbered(alloc, letter, first as u128 + k as u128)?,
            width,
        })?;
    }
    Ok(())
}

// Up to each of so many bounds a word.
fn arms(
    alloc: Global,
    letter: &str,
    word: usize,
    bound: usize,
    selections: usize,
) -> Result<List<Arm>, Memory>
    requires words { word + selections < 2 ^ 63 }
    requires bounds { bound + selections < 2 ^ 63 }
    ensures { IfOk result (λ arms. arms ≡ options_by (numbered letter.now) word bound selections) }
{
    let mut arms = List::new(alloc);
    for k in 0..selections {
        arms.push(Arm {
            guard: Guard::UpTo(named(alloc, "b", bound + k)?),
            operand: named(alloc, letter, word + k)?,
        })?;
    }
    Ok(arms)
}

// Up to each of so many bounds a word, and behind them the last one.
fn tap(
    alloc: Global,
    letter: &str,
    width: Width,
    word: usize,
    bound: usize,
    selections: usize,
) -> Result<Tap, Memory>
    requires words { word + selections < 2 ^ 63 }
    requires bounds { bound + selections < 2 ^ 63 }
    ensures { IfOk result (λ tap. tap ≡ tap_by (numbered letter.now) width word bound selections) }
{
    Ok(Tap {
        width,
        arms: arms(alloc, letter, word, bound, selections)?,
        otherwise: named(alloc, letter, word + selections)?,
    })
}

// The ports of a place: its words and then its bounds.
fn add_words(
    alloc: Global,
    letter: &str,
    width: Width,
    word: usize,
    bound: usize,
    selections: usize,
    ports: &mut List<Port>,
) -> Result<(), Memory>
    requires { selections < 2 ^ 63 }
    ensures { OnOk result (ports.new ≡ ports.old ++ (ports_by
        (numbered letter.now) width word (suc selections) ++ bounds_by bound selections)) }
{
    add_ports(alloc, letter, width, word, selections + 1, ports)?;
    add_ports(alloc, "b", counter_width(), bound, selections, ports)
}

// So many guards, by two bounds each.
fn guards(alloc: Global, bound: usize, count: usize) -> Result<List<Guard>, Memory>
    requires { bound + 2 * count < 2 ^ 63 }
    ensures { IfOk result (λ guards. guards ≡ guards_by bound count) }
{
    let mut guards = List::new(alloc);
    for k in 0..count {
        guards.push(Guard::Within {
            first: named(alloc, "b", bound + 2 * k)?,
            last: named(alloc, "b", bound + 2 * k + 1)?,
        })?;
    }
    Ok(guards)
}

// The ports of the bounds of so many guards.
fn add_bounds(
    alloc: Global,
    bound: usize,
    count: usize,
    ports: &mut List<Port>,
) -> Result<(), Memory>
    requires { bound + 2 * count < 2 ^ 63 }
    ensures { OnOk result (ports.new ≡ ports.old ++ window_ports bound count) }
{
    for k in 0..count {
        add_ports(alloc, "b", counter_width(), bound + 2 * k, 2, ports)?;
    }
    Ok(())
}

impl Interface {
    ghost use Rattle.av_kinds.specs.inner.Added.{as_datapath, as_guarded, as_datapaths};
    ghost use Rattle.av_kinds.specs.inner.Shapes.{mode_shape_of, lane_shape_of};
    ghost use Rattle.av_kinds.specs.inner.Interfaces as interfaces;
    ghost use Rattle.av_kinds.specs.inner.Numbers.{counts_of, AreFew, AddsPorts, IsOpened};

    /// No ports but the counter's, where there is one.
    pub(crate) fn new(alloc: Global, counter: Option<Name>) -> Result<Interface, Memory>
        ensures { IfOk result (λ own. IsOpened counter own) }
    {
        let mut ports = List::new(alloc);
        if let Some(name) = counter {
            ports.push(Port {
                name,
                width: counter_width(),
            })?;
        }
        Ok(Interface {
            ports,
            inputs: 0,
            taps: 0,
            bounds: 0,
        })
    }

    // The ports of a place with words of input ports.
    fn add_inputs(&mut self, alloc: Global, width: Width, selections: u32) -> Result<Tap, Memory>
        requires { AreFew self.old }
        ensures tap { IfOk result (λ tap.
            tap ≡ interfaces.tap_in (counts_of self.old) Inlet.Inputs width selections) }
        ensures ports { OnOk result (AddsPorts self.old self.new
            (interfaces.ports_in (counts_of self.old) Inlet.Inputs width selections)
            (interfaces.past (counts_of self.old) Inlet.Inputs selections)) }
    {
        prove!(self.ports.len() <= 1 << 30);
        let (word, bound, selections) = (self.inputs, self.bounds, selections as usize);
        let own = tap(alloc, "i", width, word, bound, selections)?;
        add_words(alloc, "i", width, word, bound, selections, &mut self.ports)?;
        self.inputs = word + selections + 1;
        self.bounds = bound + selections;
        Ok(own)
    }

    // The ports of a place with words of lines.
    fn add_taps(&mut self, alloc: Global, width: Width, selections: u32) -> Result<Tap, Memory>
        requires { AreFew self.old }
        ensures tap { IfOk result (λ tap.
            tap ≡ interfaces.tap_in (counts_of self.old) Inlet.Taps width selections) }
        ensures ports { OnOk result (AddsPorts self.old self.new
            (interfaces.ports_in (counts_of self.old) Inlet.Taps width selections)
            (interfaces.past (counts_of self.old) Inlet.Taps selections)) }
    {
        prove!(self.ports.len() <= 1 << 30);
        let (word, bound, selections) = (self.taps, self.bounds, selections as usize);
        let own = tap(alloc, "t", width, word, bound, selections)?;
        add_words(alloc, "t", width, word, bound, selections, &mut self.ports)?;
        self.taps = word + selections + 1;
        self.bounds = bound + selections;
        Ok(own)
    }

    // The ports of a place, and what it takes from them.
    fn add_site(&mut self, alloc: Global, site: SiteShape) -> Result<Tap, Memory>
        requires { AreFew self.old }
        ensures tap { IfOk result (λ tap. tap ≡ interfaces.tap_of (counts_of self.old) site) }
        ensures ports { OnOk result (AddsPorts self.old self.new (interfaces.site_ports
            (counts_of self.old) site) (interfaces.past_site (counts_of self.old) site)) }
    {
        match site.inlet {
            Inlet::Inputs => self.add_inputs(alloc, site.width, site.selections),
            Inlet::Taps => self.add_taps(alloc, site.width, site.selections),
            Inlet::Pipe(number) => Ok(Tap {
                width: site.width,
                arms: List::new(alloc),
                otherwise: named(alloc, "p", number)?,
            }),
        }
    }

    // The ports of a mode's places, and its tree over them.
    fn add_datapath<'a>(
        &mut self,
        alloc: Global,
        mode: &ModeShape<'a>,
    ) -> Result<Datapath<'a>, Memory>
        requires { AreFew self.old }
        ensures datapath { IfOk result (λ own. as_datapath own
            ≡ interfaces.datapath_of (counts_of self.old) (mode_shape_of mode.now)) }
        ensures ports { OnOk result (AddsPorts self.old self.new (interfaces.sites_ports (counts_of
            self.old) mode.now.sites) (interfaces.past_sites (counts_of self.old) mode.now.sites)) }
    {
        let mut taps = List::new(alloc);
        for site in mode.sites.as_slice() {
            taps.push(self.add_site(alloc, *site)?)?;
        }
        Ok(Datapath {
            taps,
            tree: mode.tree,
        })
    }

    // And those of its windows.
    fn add_mode<'a>(
        &mut self,
        alloc: Global,
        mode: &ModeShape<'a>,
    ) -> Result<GuardedDatapath<'a>, Memory>
        requires { AreFew self.old }
        ensures datapath { IfOk result (λ own.
            as_guarded own ≡ interfaces.guarded_of (counts_of self.old) (mode_shape_of mode.now)) }
        ensures ports { OnOk result (AddsPorts self.old self.new
            (interfaces.tested_ports (counts_of self.old) (mode_shape_of mode.now))
            (interfaces.past_tested (counts_of self.old) (mode_shape_of mode.now))) }
    {
        let datapath = self.add_datapath(alloc, mode)?;
        prove!(self.ports.len() <= 1 << 30);
        let (bound, windows) = (self.bounds, mode.windows as usize);
        let guards = guards(alloc, bound, windows)?;
        add_bounds(alloc, bound, windows, &mut self.ports)?;
        self.bounds = bound + 2 * windows;
        Ok(GuardedDatapath { guards, datapath })
    }

    /// The ports of a lane, mode by mode, and what it takes from them. Its last mode is not tested.
    pub(crate) fn add_lane<'a>(
        &mut self,
        alloc: Global,
        lane: &LaneShape<'a>,
    ) -> Result<LaneDatapaths<'a>, Memory>
        requires few { AreFew self.old }
        requires some { 0 < length lane.now.modes }
        ensures datapaths { IfOk result (λ own. as_datapaths own
            ≡ interfaces.datapaths_of (counts_of self.old) (lane_shape_of lane.now).modes) }
        ensures ports { OnOk result (AddsPorts self.old self.new
            (interfaces.modes_ports (counts_of self.old) (lane_shape_of lane.now).modes)
            (interfaces.past_modes (counts_of self.old) (lane_shape_of lane.now).modes)) }
    {
        let shapes = lane.modes.as_slice();
        let last = shapes.len() - 1;
        let mut modes = List::new(alloc);
        for k in 0..last {
            modes.push(self.add_mode(alloc, &shapes[k])?)?;
        }
        Ok(LaneDatapaths {
            modes,
            otherwise: self.add_datapath(alloc, &shapes[last])?,
        })
    }
}
