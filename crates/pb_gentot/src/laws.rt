//! What is proved of tables of bounds.
ghost use Rattle.pb_gentot.specs.BoundTableLaws.{RowsAreSums, RowsAreSound, TablesExtend, RowsPropagate, TablesCount, TablesNameOnly};
ghost use Rattle.pb_gentot.specs.BoundTableLaws.{TablesAreDerived, TableStepsAreFew, TableStepsAreSayable, TableStepsAreShort};

/// The law that the values of a table's rows ascend, and are what the sum can be other than 0.
pub fn rows_are_sums()
    ensures { RowsAreSums }
{}

/// The law that under a model in which a row's literal is false the sum is below its value.
pub fn rows_are_sound()
    ensures { RowsAreSound }
{}

/// The law that each assignment extends to a model in which each row's literal says whether the sum reaches its value.
pub fn tables_extend()
    ensures { TablesExtend }
{}

/// The law that with the negation of a row's literal propagation reaches all that the bound below its value forces, or a conflict.
pub fn rows_propagate()
    ensures { RowsPropagate }
{}

/// The law that a table has as many clauses as it says.
pub fn tables_count()
    ensures { TablesCount }
{}

/// The law that each literal of a table is of a variable of the sum or of a fresh one.
pub fn tables_name_only()
    ensures { TablesNameOnly }
{}

/// The law that from any database with room for its fresh variables, none of which a constraint names, the steps of a table are allowed
/// and put out its clauses.
pub fn tables_are_derived()
    ensures { TablesAreDerived }
{}

/// The law that the steps of a table are at most 8 * (fresh + clauses).
pub fn table_steps_are_few()
    ensures { TableStepsAreFew }
{}

/// The law that lines can say the steps of a table of fewer than 5 * 2^60 clauses, if the next id is at most 2^61.
pub fn table_steps_are_sayable()
    ensures { TableStepsAreSayable }
{}

/// The law that the lines of such a table's steps are within the limits of a text.
pub fn table_steps_are_short()
    ensures { TableStepsAreShort }
{}
