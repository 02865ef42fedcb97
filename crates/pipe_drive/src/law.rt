ghost use Rattle.std.specs.Prelude.{◌≡◌, ℕ, ◌+◌, ◌*◌, ◌<◌, Bool, get_or, length};
ghost use Rattle.hw_module.specs.declared.rows.Owner.TheVariants.{Pipe};
ghost use Rattle.hw_module.specs.Driven.{IsDriven};
ghost use Rattle.hw_module.specs.Frame.{Grows};
ghost use Rattle.hw_module.specs.Rights.{Makes};
ghost use Rattle.hw_module.specs.Rows.{ModuleValue, reg_at, wire_at};
ghost use Rattle.service_reg.specs.declared.service.Service.{Service};
ghost use Rattle.plug_build.specs.Fits.{WorldFits};
ghost use Rattle.plug_build.specs.Frame.{Leaves};
ghost use Rattle.plug_build.specs.World.{World};
ghost use Rattle.pipe_drive.specs.Rights.{AreDone, DrivesLeft, pipe_rights};
ghost use Rattle.pipe_drive.specs.Rows.{IsMade, PlaceRows, bare_reg, bare_wire, own_shapes, plain, wire_levels};

/// The law of what is made: each forward wire and register of the pipeline by its number, with its width, its level or reset, and no
/// driver. This does nothing: its contract is the law.
pub fn made_things_are_found()
    ensures wires { (old new : ModuleValue) (reset_pc units places : ℕ) → IsMade old new reset_pc units places → (j : ℕ) → j < 8
        → (length old.wires + j < length new.wires) × (wire_at new.wires (length old.wires + j) ≡ bare_wire (get_or wire_levels j 0)) }
    ensures regs { (old new : ModuleValue) (reset_pc units places : ℕ) → IsMade old new reset_pc units places → (j : ℕ) → j < 15
        → (length old.regs + j < length new.regs) × (reg_at new.regs (length old.regs + j) ≡ bare_reg (get_or (own_shapes reset_pc) j (plain 1))) }
    ensures chosen { (old new : ModuleValue) (reset_pc units places : ℕ) → IsMade old new reset_pc units places → (j : ℕ) → j < units
        → (length old.regs + 15 + j < length new.regs) × (reg_at new.regs (length old.regs + 15 + j) ≡ bare_reg (plain 1)) }
    ensures places { (old new : ModuleValue) (reset_pc units places : ℕ) → IsMade old new reset_pc units places → (j : ℕ) → j < places
        → (length old.regs + 15 + units + 3 * j + 2 < length new.regs) × PlaceRows new (length old.regs + 15 + units + 3 * j) }
{}

/// The law of what is left: an owner that acts within the pipeline's rights leaves to each entry what is its own, so all parts stay;
/// and where entries have driven what is theirs, and the pipeline all that is left and all that it made, each thing has its
/// driver. This does nothing: its contract is the law.
pub fn pipelines_leave_parts()
    ensures leaves { (w : World) → WorldFits w → (new : World) (n : ℕ) → new.reg ≡ w.reg → Makes Pipe (pipe_rights w.reg) w.design new.design n
        → (takes : Service → Bool) (entry : ℕ) → Leaves takes entry (pipe_rights w.reg) w new }
    ensures driven { (w : World) → WorldFits w → AreDone w.reg w.design → (new : ModuleValue) (n : ℕ) → Grows w.design new n
        → DrivesLeft w.reg w.design new → IsDriven new }
{}
