//! Laws of the steps that turn one bio: each leaves a firm mesh firm.
ghost use Rattle.geo_laws_bios.specs.BioSteps.{BouncesStayFirm, DeliversStayFirm, FailsStayFirm, SendsStayFirm, TakesStayFirm};

/// A seat takes a bio for its disk, or is refused.
pub fn takes_stay_firm()
    ensures { TakesStayFirm }
{}

/// A disk's answer is delivered, or refused.
pub fn delivers_stay_firm()
    ensures { DeliversStayFirm }
{}

/// A bio that is Down goes back with an error.
pub fn bounces_stay_firm()
    ensures { BouncesStayFirm }
{}

/// A bio that is Down fails at a NOP geom, which counts it.
pub fn fails_stay_firm()
    ensures { FailsStayFirm }
{}

/// A bio that is Down is sent to its disk.
pub fn sends_stay_firm()
    ensures { SendsStayFirm }
{}
