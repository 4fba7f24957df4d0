//! What holds of every OPB text.
ghost use Rattle.std.specs.Prelude.{◌≡◌, ◌≢◌, ℕ, List};
ghost use Rattle.pb_base.specs.declared.problem.Problem.{Problem};
ghost use Rattle.pb_opb.specs.declared.fault.OpbFault.{OpbFault};
ghost use Rattle.pb_opb.specs.declared.fault.OpbFault.TheVariants.{NoMemory};
ghost use Rattle.pb_opb.specs.Faults.{Says, Reads, IsFirstFault};

/// The law that a text says at most one problem.
pub fn one_meaning()
    ensures { (text : List ℕ) (p q : Problem) → Says text p → Says text q → p ≡ q }
{}

/// The law that a text which is read as a problem has no fault but `NoMemory`.
pub fn no_fault()
    ensures { (text : List ℕ) (p : Problem) (fault : OpbFault) → Reads text p → IsFirstFault text fault → fault ≡ NoMemory }
{}

/// The law that a text has at most one first fault, other than `NoMemory`.
pub fn one_fault()
    ensures { (text : List ℕ) (f g : OpbFault) → f ≢ NoMemory → g ≢ NoMemory → IsFirstFault text f → IsFirstFault text g → f ≡ g }
{}
