ghost use Rattle.std.specs.Prelude.{◌≡◌, ◌<◌, true};
ghost use Rattle.core_ports.specs.Ports.{is_input};
ghost use Rattle.hw_module.specs.Ports.{port_at};
ghost use Rattle.hw_cycle.specs.Inputs.{inputs_before};

/// For each port how many input ports come before it.
const PLACES: [u32; 30] = [
    0, 1, 2, 2, 3, 3, 4, 5, 6, 6, 7, 7, 7, 7, 7, 8, 9, 10, 11, 12, 13, 13, 13, 13, 13, 13, 13, 13,
    13, 13,
];

/// The place of an input port in a list of inputs.
#[inline]
pub(crate) fn input_place(port: u32) -> u32
    requires there { port < 30 }
    requires input { is_input (port_at port) ≡ true }
    ensures place { result ≡ inputs_before port }
    ensures there { result < 13 }
{
    PLACES[port as usize]
}
