//! Laws about what lines say.
ghost use Rattle.pb_lrat.specs.laws.LineLaws.{LinesNeedNoMemory, LratFaultsStandFirst, ReadsWhatIsTold};

/// The law that over fewer than 2^31 variables a line is read as what its words spell, and as nothing else.
pub fn reads_what_is_told()
    ensures { ReadsWhatIsTold }
{}

/// The law that a line's fault is at the first word after which no line goes on, or at the end of the line.
pub fn lrat_faults_stand_first()
    ensures { LratFaultsStandFirst }
{}

/// The law that no line's defined answer is `NoMemory`.
pub fn lines_need_no_memory()
    ensures { LinesNeedNoMemory }
{}
