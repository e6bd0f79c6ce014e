//! The input ports of a module, found by their names.

ghost use Rattle.std.specs.Prelude.{◌≡◌, ◌<◌, ◌≤◌, length, IfOk, IfSome};
ghost use Rattle.av_net.specs.Names.{AreDistinct, names_of};
ghost use Rattle.av_data.specs.Reading.{place_of, width_at};

use av_base::{Memory, Width};
use av_net::Port;
use av_table::NameSet;
use std::alloc::Global;
use std::marker::Model;

/// Input ports with different names, so few that 32 bits number them, as which contracts see them, and their names in the same order.
#[derive(Drop)]
pub(crate) struct InputPorts<'a> {
    ports: &'a [Port],
    names: NameSet<'a>,
}

impl<'a> Model for InputPorts<'a> {
    ghost use Rattle.std.specs.Prelude.{List as Items};
    ghost use Rattle.av_net.specs.declared.netlist.Port.{Port as Declared};

    ghost Value = { Items Declared };

    ghost use Rattle.av_data.specs.inner.Named.{AreNamed};

    ghost view = { λ inputs. inputs.ports.now };

    ghost invariant = { AreNamed };
}

impl<'a> InputPorts<'a> {
    /// The input ports by name.
    pub(crate) fn new(alloc: Global, ports: &'a [Port]) -> Result<InputPorts<'a>, Memory>
        requires names { AreDistinct (names_of ports.now) }
        requires few { length ports.now ≤ 1073741824 }
        ensures { IfOk result (λ inputs. inputs ≡ ports.now) }
    {
        let mut names = NameSet::new(alloc);
        for port in ports {
            names.insert(port.name.as_str().as_bytes())?;
        }
        Ok(InputPorts { ports, names })
    }

    /// The place of the port with a name.
    pub(crate) fn place(&self, name: &[u8]) -> Option<u32>
        ensures place { result ≡ place_of self.now name.now }
        ensures within { IfSome result (λ place. place < length self.now) }
    {
        let place = self.names.find(name)?;
        Some(place as u32)
    }

    /// The width of the port there.
    pub(crate) fn width(&self, place: u32) -> Width
        requires { place < length self.now }
        ensures { result.bits ≡ width_at self.now place }
    {
        self.ports[place as usize].width
    }
}
