//! Laws about what lines say.
ghost use Rattle.pb_steps.specs.StepLines.{ReadsWhatIsSaid, WrittenLineReads, LinesDiffer, StepFaultsSayNothing, StepFaultsStandFirst, LinesAreBounded};

/// The law that a line is read as a step iff its words spell that step, one for one.
pub fn reads_what_is_said()
    ensures { ReadsWhatIsSaid }
{}

/// The law that a line with a fault says no step.
pub fn faults_say_nothing()
    ensures { StepFaultsSayNothing }
{}

/// The law that a fault is at the first word after which no line goes on, or at the end of the line; in `pol` a number is read by the
/// word after it. What a line says is never `NoMemory`.
pub fn faults_stand_first()
    ensures { StepFaultsStandFirst }
{}

/// The law that the line which is written of a step that lines can say is read as that step.
pub fn written_line_reads()
    ensures { WrittenLineReads }
{}

/// The law that different steps that lines can say have different lines.
pub fn lines_differ()
    ensures { LinesDiffer }
{}

/// The law that the line of a step that lines can say has, with its LF, at most as many bytes as the step's size.
pub fn lines_are_bounded()
    ensures { LinesAreBounded }
{}
