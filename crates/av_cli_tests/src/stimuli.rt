//! Stimuli that are read for a module, without clocking it.

ghost use Rattle.std.specs.Prelude.{◌≤◌, length};
ghost use Rattle.av_net.specs.Sound.{IsSound};

use av_base::List;
use av_data::{DataFault, Given, Stimulus, read_stimulus};
use av_net::Module;
use av_vread::read_design;
use std::alloc::Global;
use std::test::Fail;

const TWO_PORTS: &str =
    "module two(input clk, input rst, input [7:0] a, input b, output [7:0] o);\n  assign o = a;\nendmodule\n";

const MOST_BYTES: usize = 1000;

// Whether the lines were read, or their fault with its line.
#[derive(Clone, Copy, Debug, PartialEq, Eq)]
enum StimulusRead {
    Whole,
    Syntax(u32),
    Unknown(u32),
    Outside(u32),
    Twice(u32),
    Missing,
    Memory,
}

fn told(answer: &Result<Stimulus, DataFault>) -> StimulusRead {
    match answer {
        Ok(_) => StimulusRead::Whole,
        Err(DataFault::DataSyntax(line)) => StimulusRead::Syntax(*line),
        Err(DataFault::DataUnknown(line)) => StimulusRead::Unknown(*line),
        Err(DataFault::DataOutside(line)) => StimulusRead::Outside(*line),
        Err(DataFault::DataTwice(line)) => StimulusRead::Twice(*line),
        Err(DataFault::DataMissing(_, _)) => StimulusRead::Missing,
        Err(DataFault::Memory) => StimulusRead::Memory,
    }
}

// Reads lines of which the first has the number 7.
fn read(alloc: Global, lines: &str, of: &Module) -> Result<Stimulus, DataFault>
    requires { IsSound of.now }
{
    if lines.len() > MOST_BYTES {
        return Err(DataFault::Memory);
    }
    read_stimulus(alloc, lines.as_bytes(), 7, of)
}

fn is_read(answer: &Result<Stimulus, DataFault>, cycles: u32, values: &[Given]) -> bool {
    match answer {
        Ok(stimulus) => stimulus.cycles == cycles && stimulus.values.as_slice() == values,
        Err(_) => false,
    }
}

const READ: [(&str, u32, &[Given]); 5] = [
    ("cycles 0\n", 0, &[]),
    ("-- first\n\n  cycles\t4096 \r\n", 4096, &[]),
    (
        "cycles 3\nat 2 a 255",
        3,
        &[Given {
            cycle: 2,
            port: 0,
            value: 255,
        }],
    ),
    (
        "cycles 3\nat 1 b 1\nat 1 a 2\nat 0 b 0\n",
        3,
        &[
            Given {
                cycle: 0,
                port: 1,
                value: 0,
            },
            Given {
                cycle: 1,
                port: 0,
                value: 2,
            },
            Given {
                cycle: 1,
                port: 1,
                value: 1,
            },
        ],
    ),
    (
        "cycles 2\nat 01 a 007 -- late\n",
        2,
        &[Given {
            cycle: 1,
            port: 0,
            value: 7,
        }],
    ),
];

const REFUSED: [(&str, StimulusRead); 9] = [
    ("", StimulusRead::Syntax(7)),
    ("\n\n", StimulusRead::Syntax(9)),
    ("cycles 4097\n", StimulusRead::Syntax(7)),
    ("cycles 2\ncycles 2\n", StimulusRead::Syntax(8)),
    ("cycles 2\nat 0 clk 0\n", StimulusRead::Unknown(8)),
    ("cycles 2\nat 0 a 256\n", StimulusRead::Outside(8)),
    ("cycles 2\nat 2 a 0\n", StimulusRead::Outside(8)),
    ("cycles 2\n\nat 0 a 1\nat 0 a 1\n", StimulusRead::Twice(10)),
    ("cycles 2\nat 0 o 1\nat 9 a 1\n", StimulusRead::Unknown(8)),
];

#[test]
fn lines_give_values_in_the_order_of_cycle_and_port(rt: HostRuntime) -> Result<(), Fail> {
    let alloc = rt.alloc();
    if TWO_PORTS.len() > MOST_BYTES {
        return Err(Fail::from("a short module"));
    }
    let Ok(design) = read_design(alloc, TWO_PORTS.as_bytes()) else {
        return Err(Fail::from("a module"));
    };
    for (lines, cycles, values) in READ {
        let answer = read(alloc, lines, &design.module);
        assert_eq!(rt; told(&answer), StimulusRead::Whole);
        assert!(rt; is_read(&answer, cycles, values));
    }
    for (lines, fault) in REFUSED {
        let answer = read(alloc, lines, &design.module);
        assert_eq!(rt; told(&answer), fault);
    }
    Ok(())
}
