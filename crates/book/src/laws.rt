// What the layers come to in a book's own words. These functions are there for their contracts: each states a theorem.
ghost use Rattle.book.specs.Rows.{RowsNumbered};
ghost use Rattle.book.specs.Layers.{JoinedTables, RowsBarred};

// Row numbers and lists of holders stand for one another.
pub fn rows_numbered()
    ensures { RowsNumbered }
{}

// Joined books have the tables of the first and then those of the second, or mean the first alone.
pub fn joined_tables()
    ensures { JoinedTables }
{}

// A row is absent under bars exactly when it was, or when it names a barred pair.
pub fn rows_barred()
    ensures { RowsBarred }
{}
