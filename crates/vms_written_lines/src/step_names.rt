ghost use Rattle.std.specs.Prelude.{◌≡◌};
ghost use Rattle.vms_written_lines.specs.Forms.{step_named};

/// The kinds of steps, by the names that lines give them.
#[derive(Clone, Copy, Debug)]
pub(crate) enum StepName {
    LoadT,
    LoadD,
    Put,
    Miss,
    AddG,
    AddS,
    Take,
    LoadG,
    LoadS,
    LoadM,
    LoadO,
    SetT,
    SetM,
    SetO,
    SetA,
    LoadA,
    Split,
    Join,
}

/// The step that a word names.
#[inline]
pub(crate) fn step_named(word: &[u8]) -> Option<StepName>
    ensures { result ≡ step_named word.now }
{
    match word {
        b"LoadT" => Some(StepName::LoadT),
        b"LoadD" => Some(StepName::LoadD),
        b"Put" => Some(StepName::Put),
        b"Miss" => Some(StepName::Miss),
        b"AddG" => Some(StepName::AddG),
        b"AddS" => Some(StepName::AddS),
        b"Take" => Some(StepName::Take),
        b"LoadG" => Some(StepName::LoadG),
        b"LoadS" => Some(StepName::LoadS),
        b"LoadM" => Some(StepName::LoadM),
        b"LoadO" => Some(StepName::LoadO),
        b"SetT" => Some(StepName::SetT),
        b"SetM" => Some(StepName::SetM),
        b"SetO" => Some(StepName::SetO),
        b"SetA" => Some(StepName::SetA),
        b"LoadA" => Some(StepName::LoadA),
        b"Split" => Some(StepName::Split),
        b"Join" => Some(StepName::Join),
        _ => None,
    }
}
