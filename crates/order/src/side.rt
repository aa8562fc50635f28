// The two kinds of node, and the join that a node is a side of.
ghost use Rattle.std.specs.Prelude.{◌≡◌, ◌<◌, ◌≤◌};
ghost use Rattle.order.specs.Sides.{side_of, node_of, side_number};

// A side of a join: a table, or an earlier join.
#[derive(Clone, Copy)]
pub enum Side {
    Table(usize),
    Joined(usize),
}

// The join above a node, and whether the node is its first side: the flag names the side, no value depends on it.
#[derive(Clone, Copy)]
pub struct Above {
    pub join: usize,
    pub first: bool,
}

impl Side {
    // What a node is, where so many tables are the first nodes.
    pub fn of(tables: usize, node: usize) -> Side
        ensures { result ≡ side_of tables node }
    {
        if node < tables {
            Side::Table(node)
        } else {
            Side::Joined(node - tables)
        }
    }

    // The node that it is.
    pub(crate) fn node(self, tables: usize) -> usize
        requires few { tables ≤ 64 }
        requires small { side_number self < 64 }
        ensures { result ≡ node_of tables self }
    {
        match self {
            Side::Table(table) => table,
            Side::Joined(join) => tables + join,
        }
    }
}
