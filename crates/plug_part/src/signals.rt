ghost use Rattle.std.specs.Prelude.{◌≡◌, ℕ, List, Some};
ghost use Rattle.hw_pool.specs.declared.node.Node.{Node};
ghost use Rattle.hw_pool.specs.Meaning.{Env};
ghost use Rattle.service_ports.specs.declared.ports.DecoderPorts.{DecoderPorts};
ghost use Rattle.service_ports.specs.declared.ports.ExecPorts.{ExecPorts};
ghost use Rattle.service_ports.specs.declared.ports.FetchPorts.{FetchPorts};
ghost use Rattle.service_ports.specs.declared.ports.HazardPorts.{HazardPorts};
ghost use Rattle.service_ports.specs.declared.ports.PredictPorts.{PredictPorts};
ghost use Rattle.service_ports.specs.declared.ports.RegFilePorts.{RegFilePorts};
ghost use Rattle.service_ports.specs.declared.ports.SystemPorts.{SystemPorts};
ghost use Rattle.service_ports.specs.Ports.{decoder_ports, exec_ports, fetch_ports, hazard_ports, predict_ports, regfile_ports, system_ports};
ghost use Rattle.plug_part.specs.Named.{decode_named, exec_named, fetch_named, hazard_named, predict_named, reg_named, system_named, trees_of};
ghost use Rattle.plug_part.specs.Signals.{decode_signals, exec_signals, fetch_signals, hazard_signals, predict_signals, reg_signals, system_signals};

/// The signals that the laws of a part read, by places in the lists of ports, are those of the ports of these names. This does
/// nothing: its contract is the law.
pub fn signals_are_named()
    ensures fetch { (nodes : List Node) (p : FetchPorts) (q : PredictPorts) (run : ℕ → Env)
        → fetch_signals (trees_of nodes (fetch_ports p)) (Some (trees_of nodes (predict_ports q))) run ≡ fetch_named nodes run p q }
    ensures predict { (nodes : List Node) (p : PredictPorts) (run : ℕ → Env) → predict_signals (trees_of nodes (predict_ports p)) run ≡ predict_named nodes run p }
    ensures decoder { (nodes : List Node) (p : DecoderPorts) (run : ℕ → Env) → decode_signals (trees_of nodes (decoder_ports p)) run ≡ decode_named nodes run p }
    ensures regfile { (nodes : List Node) (p : RegFilePorts) (run : ℕ → Env) → reg_signals (trees_of nodes (regfile_ports p)) run ≡ reg_named nodes run p }
    ensures hazard { (nodes : List Node) (p : HazardPorts) (run : ℕ → Env) → hazard_signals (trees_of nodes (hazard_ports p)) run ≡ hazard_named nodes run p }
    ensures exec { (nodes : List Node) (p : ExecPorts) (run : ℕ → Env) → exec_signals (trees_of nodes (exec_ports p)) run ≡ exec_named nodes run p }
    ensures system { (nodes : List Node) (p : SystemPorts) (run : ℕ → Env) → system_signals (trees_of nodes (system_ports p)) run ≡ system_named nodes run p }
{}
