ghost use Rattle.std.specs.Prelude.{◌≡◌, ℕ, Some, length};
ghost use Rattle.service_reg.specs.declared.service.Service.{Service};
ghost use Rattle.service_reg.specs.declared.service.Service.TheVariants.{Exec};
ghost use Rattle.service_ports.specs.declared.ports.ExecPorts.{ExecPorts};
ghost use Rattle.service_ports.specs.Ports.{exec_ports, input_shapes, output_widths};
ghost use Rattle.service_ports.specs.Registry.{Offered, OffersBy, RegistryValue, single};

/// The law of the table: each service has as many inputs and outputs as the table has of it. This does nothing: its contract
/// is the law.
pub fn ports_fill_the_table()
    ensures inputs { (r : RegistryValue) (s : Service) (o : Offered) → single r s ≡ Some o → length o.ports.inputs ≡ length (input_shapes s) }
    ensures outputs { (r : RegistryValue) (s : Service) (o : Offered) → single r s ≡ Some o → length o.ports.outputs ≡ length (output_widths s) }
    ensures exec_inputs { (p : ExecPorts) → length (exec_ports p).inputs ≡ length (input_shapes Exec) }
    ensures exec_outputs { (p : ExecPorts) → length (exec_ports p).outputs ≡ length (output_widths Exec) }
{}

/// The law of offers: where nothing is offered, the offers that come are of each entry, and so are those of one entry, one
/// step behind the other. This does nothing: its contract is the law.
pub fn offers_chain()
    ensures offers_nothing { (by : ℕ) (r : RegistryValue) → OffersBy by r r }
    ensures offers_then { (by : ℕ) (a b c : RegistryValue) → OffersBy by a b → OffersBy by b c → OffersBy by a c }
{}
