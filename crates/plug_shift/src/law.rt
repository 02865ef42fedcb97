ghost use Rattle.plug_shift.specs.Rows.{BarrelIsRight, LightIsRight};

/// For each row of the shifts, the barrel shifter's value is the row's at each word of it. This does nothing: its contract is the law.
pub fn shift_barrel_is_right()
    ensures value { BarrelIsRight }
{}

/// Each shift of the light shifter ends within 32 cycles with the row's value, whatever its registers held before. This does nothing:
/// its contract is the law.
pub fn shift_light_is_right()
    ensures ends { LightIsRight }
{}
