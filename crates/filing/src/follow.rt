// Which line may follow which, and after which the text may end.
ghost use Rattle.std.specs.Prelude.{◌≡◌};
ghost use Rattle.filing.specs.Follows.{may_follow, may_end, follow_of};

use lines::Kind;

// After one kind of line: which kinds may come, and whether the end may.
#[derive(Clone, Copy)]
struct Follow {
    locks: bool,
    holders: bool,
    table: bool,
    row: bool,
    differ: bool,
    same: bool,
    join: bool,
    bar: bool,
    end: bool,
}

// The first is for the start of the text, then one for each kind of the line before (a form the project fixes).
const MAY_FOLLOW: [Follow; 9] = [
    Follow {
        locks: true,
        holders: false,
        table: false,
        row: false,
        differ: false,
        same: false,
        join: false,
        bar: false,
        end: false,
    },
    Follow {
        locks: false,
        holders: true,
        table: false,
        row: false,
        differ: false,
        same: false,
        join: false,
        bar: false,
        end: false,
    },
    Follow {
        locks: false,
        holders: false,
        table: true,
        row: false,
        differ: true,
        same: true,
        join: false,
        bar: false,
        end: false,
    },
    Follow {
        locks: false,
        holders: false,
        table: true,
        row: true,
        differ: true,
        same: true,
        join: true,
        bar: true,
        end: true,
    },
    Follow {
        locks: false,
        holders: false,
        table: true,
        row: true,
        differ: true,
        same: true,
        join: true,
        bar: true,
        end: true,
    },
    Follow {
        locks: false,
        holders: false,
        table: false,
        row: false,
        differ: true,
        same: true,
        join: true,
        bar: true,
        end: true,
    },
    Follow {
        locks: false,
        holders: false,
        table: false,
        row: false,
        differ: true,
        same: true,
        join: true,
        bar: true,
        end: true,
    },
    Follow {
        locks: false,
        holders: false,
        table: false,
        row: false,
        differ: false,
        same: false,
        join: true,
        bar: true,
        end: true,
    },
    Follow {
        locks: false,
        holders: false,
        table: false,
        row: false,
        differ: false,
        same: false,
        join: false,
        bar: true,
        end: true,
    },
];

// What may come after a line of this kind, or at the start.
fn after(before: Option<Kind>) -> Follow
    ensures { result ≡ follow_of before }
{
    MAY_FOLLOW[before.map_or(0, |kind| kind as usize + 1)]
}

// Whether a line of this kind may follow.
pub(crate) fn may_follow(before: Option<Kind>, kind: Kind) -> bool
    ensures { result ≡ may_follow before kind }
{
    let row = after(before);
    match kind {
        Kind::Locks => row.locks,
        Kind::Holders => row.holders,
        Kind::Table => row.table,
        Kind::Row => row.row,
        Kind::Differ => row.differ,
        Kind::Same => row.same,
        Kind::Join => row.join,
        Kind::Bar => row.bar,
    }
}

// Whether the text may end.
pub(crate) fn may_end(before: Option<Kind>) -> bool
    ensures { result ≡ may_end before }
{
    after(before).end
}
