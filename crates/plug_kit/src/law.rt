ghost use Rattle.std.specs.Prelude.{◌≡◌, ℕ, ◌+◌, ◌∷◌, ◌<◌, ◌≤◌, [], Bool, List, None, Option, Some, eqb, false, get_or, length, map, max, true};
ghost use Rattle.std.specs.List.{list_any};
ghost use Rattle.hw_pool.specs.Nodes.{PoolValue};
ghost use Rattle.hw_pool.specs.Meaning.{Env, value};
ghost use Rattle.hw_pool.specs.Frame.{Adds};
ghost use Rattle.hw_pool.specs.Scope.{Scope};
ghost use Rattle.hw_expr.specs.declared.net.Net.{Net};
ghost use Rattle.hw_expr.specs.Nets.{InScope, net_value};
ghost use Rattle.hw_gates.specs.Places.{Is, IsIn, Step, value_in};
ghost use Rattle.hw_module.specs.declared.rows.Owner.TheVariants.{Entry};
ghost use Rattle.hw_module.specs.Rows.{ModuleValue, array_at, reg_at, wire_at};
ghost use Rattle.hw_module.specs.Rights.{Rights};
ghost use Rattle.hw_module.specs.Frame.{Grows};
ghost use Rattle.hw_module.specs.Checked.{DriversFit};
ghost use Rattle.hw_module.specs.Scope.{scope_of};
ghost use Rattle.service_reg.specs.declared.service.Service.{Service};
ghost use Rattle.service_reg.specs.declared.service.Service.TheVariants.{DataBus, Exec, Fetch};
ghost use Rattle.service_reg.specs.Services.{number};
ghost use Rattle.service_ports.specs.declared.ports.ExecPorts.{ExecPorts};
ghost use Rattle.service_ports.specs.Ports.{Ports, exec_ports, input_shapes, output_level, output_widths};
ghost use Rattle.service_ports.specs.Registry.{AddsOffer, offer_of, single};
ghost use Rattle.plug_part.specs.Part.{Part, PartArray, PartReg, PartWire, PortTrees};
ghost use Rattle.plug_part.specs.Owned.{is_among, is_own_input, offers};
ghost use Rattle.plug_part.specs.Of.{net_tree};
ghost use Rattle.plug_part.specs.Runs.{IsPartRun};
ghost use Rattle.plug_part.specs.Things.{HasWire};
ghost use Rattle.plug_part.specs.Alone.{OffersOnly};
ghost use Rattle.plug_build.specs.World.{Builds, World, part_in};
ghost use Rattle.plug_build.specs.Fits.{AreApart, AreInputs, AreNew, AreOutputs, IsInput, IsOutput, WorldFits};
ghost use Rattle.plug_build.specs.Done.{AreOpen, IsDone};
ghost use Rattle.plug_kit.specs.declared.inputs.ExecInputs.{ExecInputs};
ghost use Rattle.plug_kit.specs.Bounds.{IsBounded, no_scope, own_scope, part_scope};
ghost use Rattle.plug_kit.specs.Bare.{IsBare};
ghost use Rattle.plug_kit.specs.Carries.{Carries};
ghost use Rattle.plug_kit.specs.Unit.{IsOffered, IsOfferedAmong, IsUnit};
ghost use Rattle.plug_kit.specs.Plain.{IsPlain};

/// The law of bounds: in each cycle of a run of a part, out of reset, what stands in the part's scope is within its widths;
/// that scope is the one of the entry's rows in the module, which a module that has grown has still; and nothing bounds
/// nothing. This does nothing: its contract is
/// the law.
pub fn runs_are_bounded()
    ensures part { (p : Part) (run : ℕ → Env) → IsPartRun p run → (k : ℕ) → IsBounded (part_scope p) (run k) }
    ensures own { (takes : Service → Bool) (entry : ℕ) (w : World) → part_scope (part_in takes entry w) ≡ own_scope entry w.design }
    ensures grown { (entry : ℕ) (old new : ModuleValue) (n : ℕ) → Grows old new n → (env : Env) → IsBounded (own_scope entry new) env
        → IsBounded (own_scope entry old) env }
    ensures nothing { (env : Env) → IsBounded no_scope env }
{}

/// The law of nets with functions: they stay while nodes are added, the module grows or
/// more is bounded; a forward wire, a literal and a register have theirs;
/// an operator over such nets has its own of theirs, and so has a cell of an array; such a net is an output of a service.
/// This does nothing: its contract is the law.
pub fn nets_carry()
    ensures on { (s : Scope) (d : ModuleValue) (old new : PoolValue) (n width most : ℕ) (f : Env → ℕ) (net : Net) → Adds old new n
        → Carries s d old width most f net → Carries s d new width most f net }
    ensures grown { (s : Scope) (old new : ModuleValue) (n : ℕ) (pool : PoolValue) (width most : ℕ) (f : Env → ℕ) (net : Net) → Grows old new n
        → Carries s old pool width most f net → Carries s new pool width most f net }
    ensures more { (s t : Scope) (d : ModuleValue) (pool : PoolValue) (width most : ℕ) (f : Env → ℕ) (net : Net)
        → ((env : Env) → IsBounded t env → IsBounded s env) → Carries s d pool width most f net → Carries t d pool width most f net }
    ensures wire { (s : Scope) (d : ModuleValue) (pool : PoolValue) (by wire : ℕ) (shape : ℕ × ℕ) (net : Net) → IsInput d by wire shape
        → InScope (scope_of d) pool net → net.width ≡ (wire_at d.wires wire).width → net.level ≡ (wire_at d.wires wire).level
        → ((env : Env) → net_value env pool net ≡ env.wires wire) → Carries s d pool shape.0 shape.1 (λ env. env.wires wire) net }
    ensures lit { (s : Scope) (d : ModuleValue) (pool : PoolValue) (width most number : ℕ) (net : Net) → InScope (scope_of d) pool net
        → net.width ≡ width → net.level ≡ 0 → ((env : Env) → net_value env pool net ≡ number) → Carries s d pool width most (λ env. number) net }
    ensures reg { (s : Scope) (d : ModuleValue) (pool : PoolValue) (reg width most : ℕ) (net : Net) → InScope (scope_of d) pool net
        → net.width ≡ (reg_at d.regs reg).width → (reg_at d.regs reg).width ≡ width → net.level ≡ 0
        → ((env : Env) → net_value env pool net ≡ env.regs reg) → Carries s d pool width most (λ env. env.regs reg) net }
    ensures one { (s : Scope) (d : ModuleValue) (old new : PoolValue) (wa width most : ℕ) (fa : Env → ℕ) (g : ℕ → ℕ → ℕ) (a net : Net)
        → Carries s d old wa most fa a → (InScope (scope_of d) old a → InScope (scope_of d) new net) → net.width ≡ width → net.level ≡ a.level
        → ((env : Env) → net_value env new net ≡ g a.width (net_value env old a)) → Carries s d new width most (λ env. g wa (fa env)) net }
    ensures two { (s : Scope) (d : ModuleValue) (old new : PoolValue) (wa wb width most : ℕ) (fa fb : Env → ℕ) (g : ℕ → ℕ → ℕ → ℕ) (a b net : Net)
        → Carries s d old wa most fa a → Carries s d old wb most fb b
        → (InScope (scope_of d) old a → InScope (scope_of d) old b → InScope (scope_of d) new net) → net.width ≡ width
        → net.level ≡ max a.level b.level → ((env : Env) → net_value env new net ≡ g a.width (net_value env old a) (net_value env old b))
        → Carries s d new width most (λ env. g wa (fa env) (fb env)) net }
    ensures read { (s : Scope) (d : ModuleValue) (old new : PoolValue) (array bits width most : ℕ) (f : Env → ℕ) (a net : Net)
        → Carries s d old bits most f a → InScope (scope_of d) new net → net.width ≡ width → net.level ≡ a.level
        → ((env : Env) → net_value env new net ≡ get_or (env.cells array) (net_value env old a) 0)
        → Carries s d new width most (λ env. get_or (env.cells array) (f env) 0) net }
    ensures output { (s : Scope) (d : ModuleValue) (pool : PoolValue) (width most : ℕ) (f : Env → ℕ) (net : Net)
        → Carries s d pool width most f net → IsOutput d pool most width net }
{}

/// The law of entries with one service: after the first call its inputs are open, different forward wires and inputs of no other
/// offer, it offers no other service, and its part has it with these ports and no forward wire but its inputs; what the part
/// offers stays while nodes are added; and an entry
/// whose part has no other forward wire, and each register and array driven, and that drives no output of the core, is
/// done. This does nothing: its contract is the law.
pub fn services_are_offered()
    ensures are_open { (s : Service) (e : ℕ) (old new : World) (mid : ModuleValue) (ws : List ℕ) (p : Ports) → IsOffered s e old new mid ws p → AreOpen e new }
    ensures own { (s : Service) (e : ℕ) (old new : World) (mid : ModuleValue) (ws : List ℕ) (p : Ports) → IsOffered s e old new mid ws p → offer_of new.reg e s ≡ Some p }
    ensures no_other { (s : Service) (e : ℕ) (old new : World) (mid : ModuleValue) (ws : List ℕ) (p : Ports) → IsOffered s e old new mid ws p → (t : Service) → (t ≡ s → ⊥) → offer_of new.reg e t ≡ None }
    ensures offers { (s : Service) (e : ℕ) (old new : World) (mid : ModuleValue) (ws : List ℕ) (p : Ports) → IsOffered s e old new mid ws p → (takes : Service → Bool) → (part_in takes e new).offers s
        ≡ Some (record { inputs = p.inputs; outputs = map (net_tree new.pool.nodes) p.outputs }) }
    ensures apart { (s : Service) (e : ℕ) (old new : World) (mid : ModuleValue) (ws : List ℕ) (p : Ports) → IsOffered s e old new mid ws p → AreApart p.inputs }
    ensures unshared { (s : Service) (e : ℕ) (old new : World) (mid : ModuleValue) (ws : List ℕ) (p : Ports) → IsOffered s e old new mid ws p → WorldFits old → AreNew old.reg p.inputs }
    ensures wires { (s : Service) (e : ℕ) (old new : World) (mid : ModuleValue) (ws : List ℕ) (p : Ports) → IsOffered s e old new mid ws p → (takes : Service → Bool) (k : ℕ) (row : PartWire) → (part_in takes e new).wires k ≡ Some row
        → is_among k p.inputs ≡ true }
    ensures stay { (takes : Service → Bool) (entry n : ℕ) (old new : World) → WorldFits old → Adds old.pool new.pool n → new.reg ≡ old.reg
        → (s : Service) → (part_in takes entry new).offers s ≡ (part_in takes entry old).offers s }
    ensures done { (takes : Service → Bool) (s : Service) (e : ℕ) (w : World) (ports : PortTrees) → (part_in takes e w).offers s ≡ Some ports
        → ((k : ℕ) (row : PartWire) → (part_in takes e w).wires k ≡ Some row → is_among k ports.inputs ≡ true)
        → ((k : ℕ) (row : PartReg) → (part_in takes e w).regs k ≡ Some row → row.next ≡ None → ⊥)
        → ((k : ℕ) (row : PartArray) → (part_in takes e w).arrays k ≡ Some row → row.write ≡ None → ⊥)
        → offers w.reg e Fetch ≡ false → offers w.reg e DataBus ≡ false → IsDone e w }
{}

/// The law of units without state: what one built fits and is within each right, its inputs are open, and its part has Exec
/// with these ports, no forward wire but their inputs, and no register or array. This does nothing: its contract is the
/// law.
pub fn units_build()
    ensures fits { (e n : ℕ) (old new : World) (w : ExecInputs) (p : ExecPorts) → IsUnit e n old new w p → WorldFits new }
    ensures builds { (e n : ℕ) (old new : World) (w : ExecInputs) (p : ExecPorts) → IsUnit e n old new w p → (r : Rights) (most : ℕ) → n + 7 ≤ most → Builds (Entry e) r most old new }
    ensures are_open { (e n : ℕ) (old new : World) (w : ExecInputs) (p : ExecPorts) → IsUnit e n old new w p → AreOpen e new }
    ensures offers { (e n : ℕ) (old new : World) (w : ExecInputs) (p : ExecPorts) → IsUnit e n old new w p → (takes : Service → Bool) → (part_in takes e new).offers Exec
        ≡ Some (record { inputs = (exec_ports p).inputs; outputs = map (net_tree new.pool.nodes) (exec_ports p).outputs }) }
    ensures wires { (e n : ℕ) (old new : World) (w : ExecInputs) (p : ExecPorts) → IsUnit e n old new w p → (takes : Service → Bool) (k : ℕ) (row : PartWire) → (part_in takes e new).wires k ≡ Some row
        → is_among k (exec_ports p).inputs ≡ true }
    ensures regs { (e n : ℕ) (old new : World) (w : ExecInputs) (p : ExecPorts) → IsUnit e n old new w p → (takes : Service → Bool) (k : ℕ) (row : PartReg) → (part_in takes e new).regs k ≡ Some row → ⊥ }
    ensures arrays { (e n : ℕ) (old new : World) (w : ExecInputs) (p : ExecPorts) → IsUnit e n old new w p → (takes : Service → Bool) (k : ℕ) (row : PartArray) → (part_in takes e new).arrays k ≡ Some row → ⊥ }
{}

/// The law of things that are made in one call and driven in the next: an undriven register or array of the part is one of
/// the module with these widths; and where an entry that owned none made one, it is the only one. This does nothing: its
/// contract is the law.
pub fn things_are_found()
    ensures regs { (takes : Service → Bool) (e : ℕ) (w : World) (k width : ℕ) (reset : Option ℕ)
        → (part_in takes e w).regs k ≡ Some (record { width = width; reset = reset; next = None })
        → (k < length w.design.regs) × (reg_at w.design.regs k ≡ record { owner = Entry e; width = width; reset = reset; next = None }) }
    ensures arrays { (takes : Service → Bool) (e : ℕ) (w : World) (k width bits : ℕ)
        → (part_in takes e w).arrays k ≡ Some (record { width = width; bits = bits; write = None })
        → (k < length w.design.arrays) × (array_at w.design.arrays k ≡ record { owner = Entry e; width = width; bits = bits; write = None }) }
    ensures only_reg { (by number : ℕ) (old new : ModuleValue) → number ≡ length old.regs → length new.regs ≡ length old.regs + 1
        → ((k : ℕ) → k < length old.regs → reg_at new.regs k ≡ reg_at old.regs k) → ((k : ℕ) → (reg_at old.regs k).owner ≡ Entry by → ⊥)
        → (k : ℕ) → (reg_at new.regs k).owner ≡ Entry by → k ≡ number }
    ensures only_array { (by number : ℕ) (old new : ModuleValue) → number ≡ length old.arrays → length new.arrays ≡ length old.arrays + 1
        → ((k : ℕ) → k < length old.arrays → array_at new.arrays k ≡ array_at old.arrays k) → ((k : ℕ) → (array_at old.arrays k).owner ≡ Entry by → ⊥)
        → (k : ℕ) → (array_at new.arrays k).owner ≡ Entry by → k ≡ number }
{}

/// The law of gates: what hw_gates says of a net is what the kit says, and so it is an output of a service; and the value of
/// its tree. This does nothing: its contract is the law.
pub fn gates_carry()
    ensures carries { (s : Scope) (d : ModuleValue) (pool : PoolValue) (width most : ℕ) (f : Env → ℕ) (net : Net) → Is pool net width most
        → IsIn (scope_of d) pool net → ((env : Env) → value_in env pool net ≡ f env) → Carries s d pool width most f net }
    ensures output { (d : ModuleValue) (pool : PoolValue) (width most : ℕ) (net : Net) → Is pool net width most → IsIn (scope_of d) pool net
        → IsOutput d pool most width net }
    ensures adds { (old new : PoolValue) (n : ℕ) → Step old new n → Adds old new n }
    ensures tree { (env : Env) (pool : PoolValue) (net : Net) → value env (net_tree pool.nodes net) ≡ value_in env pool net }
{}

/// The law of one service and of no state: an entry that offered one service has it alone; its inputs are forward wires of the part;
/// the part of a unit without state has no other thing; and an entry of such a part is done, where it drives no output of the core.
/// This does nothing: its contract is the law.
pub fn bare_parts_are_done()
    ensures only { (s : Service) (e : ℕ) (old new : World) (mid : ModuleValue) (ws : List ℕ) (p : Ports) → IsOffered s e old new mid ws p
        → (takes : Service → Bool) → OffersOnly (part_in takes e new) s (record { inputs = p.inputs; outputs = map (net_tree new.pool.nodes) p.outputs }) }
    ensures own { (s : Service) (e : ℕ) (old new : World) (mid : ModuleValue) (ws : List ℕ) (p : Ports) → IsOffered s e old new mid ws p
        → (t : Service) → offers new.reg e t ≡ list_any (λ x. eqb (number x) (number t)) (s ∷ []) }
    ensures inputs { (takes : Service → Bool) (e : ℕ) (w : World) (ws : List ℕ) (ss : List (ℕ × ℕ)) → AreInputs w.design e ws ss → (k : ℕ) → k < length ws
        → HasWire (part_in takes e w) (get_or ws k 0) (get_or ss k (0, 0)).0 }
    ensures unit { (e n : ℕ) (old new : World) (w : ExecInputs) (p : ExecPorts) → IsUnit e n old new w p → (takes : Service → Bool)
        → IsBare (part_in takes e new) (exec_ports p).inputs }
    ensures unit_only { (e n : ℕ) (old new : World) (w : ExecInputs) (p : ExecPorts) → IsUnit e n old new w p → (takes : Service → Bool)
        → OffersOnly (part_in takes e new) Exec (record { inputs = (exec_ports p).inputs; outputs = map (net_tree new.pool.nodes) (exec_ports p).outputs }) }
    ensures done { (takes : Service → Bool) (s : Service) (e : ℕ) (w : World) (ports : PortTrees) → (part_in takes e w).offers s ≡ Some ports
        → IsBare (part_in takes e w) ports.inputs → offers w.reg e Fetch ≡ false → offers w.reg e DataBus ≡ false → IsDone e w }
{}

/// The law of one service beside other forward wires: its inputs are open, the entry offers it alone, and the other forward
/// wires are no inputs. And a world fits in which an entry offered what it alone may, whose inputs are new and each another; a forward wire of a part is there while the
/// module grows; and an undriven one that is no input is one of the module. This does nothing: its contract is the law.
pub fn wires_beside_inputs()
    ensures are_open { (s : Service) (e : ℕ) (old new : World) (base mid : ModuleValue) (ws : List ℕ) (p : Ports) → IsOfferedAmong s e old new base mid ws p → AreOpen e new }
    ensures only { (s : Service) (e : ℕ) (old new : World) (base mid : ModuleValue) (ws : List ℕ) (p : Ports) → IsOfferedAmong s e old new base mid ws p
        → (takes : Service → Bool) → OffersOnly (part_in takes e new) s (record { inputs = p.inputs; outputs = map (net_tree new.pool.nodes) p.outputs }) }
    ensures free { (s : Service) (e : ℕ) (old new : World) (base mid : ModuleValue) (ws : List ℕ) (p : Ports) → IsOfferedAmong s e old new base mid ws p
        → (k : ℕ) → is_among k ws ≡ false → is_own_input new.reg e k ≡ false }
    ensures no_input { (takes : Service → Bool) (s : Service) (e : ℕ) (w : World) (ports : PortTrees) → OffersOnly (part_in takes e w) s ports
        → (k : ℕ) → is_among k ports.inputs ≡ false → is_own_input w.reg e k ≡ false }
    ensures fits { (s : Service) (e n m : ℕ) (old new : World) (p : Ports) → WorldFits old → Adds old.pool new.pool n → Grows old.design new.design m
        → (DriversFit old.design new.pool → DriversFit new.design new.pool) → AddsOffer s e p old.reg new.reg
        → single new.reg s ≡ Some (record { by = e; ports = p }) → new.reg.execs ≡ old.reg.execs → AreInputs new.design e p.inputs (input_shapes s)
        → AreOutputs new.design new.pool (output_level s) p.outputs (output_widths s) → AreApart p.inputs
        → ((k : ℕ) → is_among k p.inputs ≡ true → length old.design.wires ≤ k) → WorldFits new }
    ensures stays { (takes : Service → Bool) (e n : ℕ) (old new : World) → Grows old.design new.design n → (k width : ℕ)
        → HasWire (part_in takes e old) k width → k < length old.design.wires → HasWire (part_in takes e new) k width }
    ensures wires { (takes : Service → Bool) (e : ℕ) (w : World) (k width level : ℕ) → is_own_input w.reg e k ≡ false
        → (part_in takes e w).wires k ≡ Some (record { width = width; level = level; driver = None })
        → (k < length w.design.wires) × (wire_at w.design.wires k ≡ record { owner = Entry e; width = width; level = level; driver = None }) }
{}

/// The law of parts without state that are built in one call: what was built fits and is within each right, its inputs are open, and
/// its part offers that service alone and has no other thing. This does nothing: its contract is the law.
pub fn plain_parts_build()
    ensures fits { (s : Service) (e n : ℕ) (old new : World) (ws : List ℕ) (p : Ports) → IsPlain s e n old new ws p → WorldFits new }
    ensures builds { (s : Service) (e n : ℕ) (old new : World) (ws : List ℕ) (p : Ports) → IsPlain s e n old new ws p → (r : Rights) (most : ℕ) → n + length ws ≤ most → Builds (Entry e) r most old new }
    ensures are_open { (s : Service) (e n : ℕ) (old new : World) (ws : List ℕ) (p : Ports) → IsPlain s e n old new ws p → AreOpen e new }
    ensures only { (s : Service) (e n : ℕ) (old new : World) (ws : List ℕ) (p : Ports) → IsPlain s e n old new ws p → (takes : Service → Bool)
        → OffersOnly (part_in takes e new) s (record { inputs = p.inputs; outputs = map (net_tree new.pool.nodes) p.outputs }) }
    ensures bare { (s : Service) (e n : ℕ) (old new : World) (ws : List ℕ) (p : Ports) → IsPlain s e n old new ws p → (takes : Service → Bool)
        → IsBare (part_in takes e new) p.inputs }
{}
