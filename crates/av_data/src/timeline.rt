//! Values that ports carry in cycles.

ghost use Rattle.std.specs.Prelude.{◌≡◌, [], not, if◌then◌else◌, IfOk, OnOk};
ghost use Rattle.av_data.specs.Kept.{is_given, placed};

use crate::stimulus::Given;
use av_base::{List, Memory};
use std::alloc::Global;
use std::collections::BTreeMap;
use std::marker::Model;

/// Values by cycle and port, in ascending order.
#[derive(Drop)]
pub struct Timeline {
    found: BTreeMap<(u32, u32), u64>,
}

impl Model for Timeline {
    ghost use Rattle.std.specs.Prelude.{List as Items, map};
    ghost use Rattle.av_data.specs.declared.stimulus.Given.{Given as Entry};

    ghost Value = { Items Entry };

    ghost use Rattle.av_data.specs.Kept.{entry_given};

    ghost view = { λ timeline. map entry_given timeline.found.entries };
}

impl Timeline {
    /// A timeline without a word.
    pub fn new(alloc: Global) -> Timeline
        ensures { result ≡ [] }
    {
        Timeline {
            found: BTreeMap::new(alloc),
        }
    }

    /// Puts a value in its place, if its port has none in its cycle. Whether it had none.
    pub fn give(&mut self, given: Given) -> Result<bool, Memory>
        ensures is_new { IfOk result (λ is_new. is_new ≡ not (is_given self.old given)) }
        ensures all { OnOk result (self.new
            ≡ (if is_given self.old given then self.old else placed given self.old)) }
    {
        let key = (given.cycle, given.port);
        if self.found.contains_key(&key) {
            return Ok(false);
        }
        match self.found.insert(key, given.value) {
            Ok(_) => Ok(true),
            Err(_) => Err(Memory),
        }
    }

    /// The values, in order.
    pub fn list(&self, alloc: Global) -> Result<List<Given>, Memory>
        ensures { IfOk result (λ list. list ≡ self.now) }
    {
        let mut list = List::new(alloc);
        for ((cycle, port), value) in &self.found {
            list.push(Given {
                cycle: *cycle,
                port: *port,
                value: *value,
            })?;
        }
        Ok(list)
    }
}
