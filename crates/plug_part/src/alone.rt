ghost use Rattle.plug_part.specs.Alone.{DecoderAlone, ExecAlone, FetchAlone, HazardAlone, RegFileAlone};

/// A part that offers one service alone, and keeps its law in all its runs, meets its laws. This does nothing: its contract is
/// the laws.
pub fn one_service_is_all()
    ensures fetch { FetchAlone }
    ensures decoder { DecoderAlone }
    ensures regfile { RegFileAlone }
    ensures hazard { HazardAlone }
    ensures exec { ExecAlone }
{}
