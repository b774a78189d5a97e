// The graph rules of a task.
ghost use Rattle.std.specs.Prelude.{◌≡◌};
ghost use Rattle.model.specs.Graph.{G2, keeps_rules};
ghost use Rattle.model.specs.Records.{shape_at};
ghost use Rattle.graph.specs.Words.{LinksOf};
ghost use Rattle.shape.specs.Choices.{AreStarts, AreEnds, choices_keep};

use crate::links::links_at;
use crate::roles::{Roles, mate_at, roles_at};
use graph::arms::arm_pair;
use graph::links::Links;
use graph::rules::{choice, g1, g3};
use model::limits::MOST_VERTICES;
use records::task::TabledTask;
use vertices::{insert, lowest, rest};

// G2: the mate of each start names it back, and the mates of the starts are the ends.
fn g2(task: TabledTask, roles: Roles) -> bool
    requires are_starts { AreStarts (shape_at task.set.now task.place) roles.starts }
    requires are_ends { AreEnds (shape_at task.set.now task.place) roles.ends }
    ensures { result ≡ G2 (shape_at task.entry.set.now task.entry.place) }
{
    let mut named = 0;
    let mut left = roles.starts;
    while left != 0 {
        let s = lowest(left);
        let end = mate_at(task, s);
        if mate_at(task, end) != s {
            return false;
        }
        named = insert(named, end);
        left = rest(left);
    }
    named == roles.ends
}

// G3 to G6 at each start. Its arms are looked for once it is known to have two.
fn all_choices(task: TabledTask, links: &Links, starts: u64) -> bool
    requires links_of { LinksOf (shape_at task.set.now task.place) links.now }
    requires are_starts { AreStarts (shape_at task.set.now task.place) starts }
    ensures { result ≡ choices_keep (shape_at task.entry.set.now task.entry.place) }
{
    let mut left = starts;
    while left != 0 {
        let s = lowest(left);
        let end = mate_at(task, s);
        if !g3(links, s, end) {
            return false;
        }
        if !choice(links, s, end, arm_pair(&links.out, s, end)) {
            return false;
        }
        left = rest(left);
    }
    true
}

// Whether the graph of a task keeps every rule.
pub fn keeps_rules(task: TabledTask) -> bool
    ensures { result ≡ keeps_rules (shape_at task.entry.set.now task.entry.place) }
{
    let n = task.head().b;
    let mut links = Links {
        into: [0; MOST_VERTICES],
        out: [0; MOST_VERTICES],
    };
    links_at(task, &mut links);
    if !g1(&links, n) {
        return false;
    }
    let roles = roles_at(task);
    if !g2(task, roles) {
        return false;
    }
    all_choices(task, &links, roles.starts)
}
