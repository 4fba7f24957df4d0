//! What accepted derivations show, and that each step is allowed or denied.
ghost use Rattle.pb_steps.specs.DenialLaws.{AllowedOrDenied};
ghost use Rattle.pb_steps.specs.RunLaws.{AcceptedExtends};

/// The law that every solution of the loaded constraints extends, with its values of the original variables, to a model of all clauses
/// that an allowed run put out.
pub fn accepted_extends()
    ensures { AcceptedExtends }
{}

/// The law that each step of a rule which meets what rules require is allowed with some database or denied for some reason, never both,
/// and with one database and one reason.
pub fn allowed_or_denied()
    ensures { AllowedOrDenied }
{}
