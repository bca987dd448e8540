// What a row asks for, whether that is in its turn, and the opening or the offer that a row is. A quote has the offer
// of its row.
ghost use Rattle.std.specs.Prelude.{◌≡◌, ◌≤◌, get_or};
ghost use Rattle.planner.specs.Calls.{open_said, open_farm};
ghost use Rattle.planner.specs.Parts.{OpensFigures};
ghost use Rattle.lines.specs.Model.{costs_in, offer_in};
ghost use Rattle.lines.specs.Orders.{order_of, order_turn};
ghost use Rattle.lines.specs.Rows.{allowances_in};

use crate::{Command, Order, Query};
use answers::Offer;
use limits::FarmCosts;
use planner::{Opening, open_figures};
use reading::{Kind, Row};

// An opening: nodes, the costs m p ST SC r, then one allowance a show.
pub fn opening(row: Row) -> Opening
    requires { (6 ≤ row.count) × (row.count ≤ 39) }
    ensures { OpensFigures result (open_said (get_or row.numbers 0 0) (costs_in row.numbers) (allowances_in row)) (open_farm (get_or row.numbers 0 0) (costs_in row.numbers) (allowances_in row)) }
{
    let costs = FarmCosts {
        send: row.numbers[1],
        compute: row.numbers[2],
        linksetup: row.numbers[3],
        nodesetup: row.numbers[4],
        returning: row.numbers[5],
    };
    open_figures(row.numbers[0], costs, &row.numbers[6..row.count])
}

// An offer: show, size and deadline, then the compute cost if it is given.
pub fn offered(row: Row) -> Offer
    ensures { result ≡ offer_in row.count row.numbers }
{
    Offer {
        show: row.numbers[0],
        size: row.numbers[1],
        deadline: row.numbers[2],
        compute: (row.count > 3).then_some(row.numbers[3]),
    }
}

// What a row asks for, by its kind: the one place that goes by it. A line that cannot be read asks for nothing.
pub fn order_of(row: Row) -> Option<Order>
    ensures { result ≡ order_of row.kind row.count row.numbers }
{
    Some(match row.kind {
        Kind::Farm => Order::Open,
        Kind::Job => Order::Command(Command::Offer(offered(row))),
        Kind::Clock => Order::Clock(row.numbers[0]),
        Kind::Account => Order::Query(Query::Account(row.numbers[0])),
        Kind::Withdraw => Order::Command(Command::Withdraw(row.numbers[0])),
        Kind::Quote => Order::Query(Query::Quote(offered(row))),
        Kind::Unreadable => return None,
    })
}

// Whether what a line asks for is in its turn: an opening before an opened farm, a call after it, and nothing never.
pub fn in_turn(order: Option<Order>, opened: bool) -> bool
    ensures { result ≡ order_turn order opened }
{
    match order {
        Some(Order::Open) => !opened,
        Some(Order::Command(_) | Order::Query(_) | Order::Clock(_)) => opened,
        None => false,
    }
}
