ghost use Rattle.std.specs.Prelude.{◌≡◌, List};
ghost use Rattle.service_reg.specs.declared.service.ServiceUse.{ServiceUse};
ghost use Rattle.service_reg.specs.declared.service.ServiceRefusal.{ServiceRefusal};
ghost use Rattle.service_reg.specs.Services.{HasNoServiceFault, IsFirstServiceFault};

/// Where there is a first fault, the services are not without fault. This does nothing: its contract is the law.
pub fn faults_exclude()
    ensures { (specs : List ServiceUse) (r : ServiceRefusal)
        → HasNoServiceFault specs → IsFirstServiceFault specs r → ⊥ }
{}

/// There is at most one first fault. This does nothing: its contract is the law.
pub fn one_first_fault()
    ensures { (specs : List ServiceUse) (r s : ServiceRefusal)
        → IsFirstServiceFault specs r → IsFirstServiceFault specs s → r ≡ s }
{}
