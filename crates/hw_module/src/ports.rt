ghost use Rattle.std.specs.Prelude.{◌≡◌, ◌<◌, not};
ghost use Rattle.core_ports.specs.Ports.{is_input, width_of};
ghost use Rattle.hw_module.specs.Ports.{port_at};

/// How many ports a core has.
pub const PORTS: u32 = 30;

const WIDTHS: [u32; 30] = [
    1, 1, 1, 1, 32, 1, 1, 32, 1, 1, 1, 32, 32, 4, 1, 1, 32, 1, 1, 1, 1, 2, 32, 32, 5, 32, 32, 1, 1,
    32,
];

const OUTPUTS: [bool; 30] = [
    false, false, true, false, true, false, false, false, true, false, true, true, true, true,
    false, false, false, false, false, false, true, true, true, true, true, true, true, true, true,
    true,
];

/// The width of a port in bits.
pub fn port_width(port: u32) -> u32
    requires { port < 30 }
    ensures { result ≡ width_of (port_at port) }
{
    WIDTHS[port as usize]
}

/// Whether the core drives a port.
pub fn is_output(port: u32) -> bool
    requires { port < 30 }
    ensures { result ≡ not (is_input (port_at port)) }
{
    OUTPUTS[port as usize]
}
