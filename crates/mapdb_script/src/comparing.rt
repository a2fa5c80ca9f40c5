//! The sequential tree of processor 0's commands, which its copy shows as long as it can be
//! compared with it: so the tree is answered from the copy.

ghost use Rattle.std.specs.Prelude.{◌≡◌, ◌↔◌, IsTrue};
ghost use Rattle.mapdb_fpage.specs.Transfer.{transfer_of};
ghost use Rattle.mapdb_script.specs.NarrowTrees.{names_narrow};
ghost use Rattle.mapdb_script.specs.Standing.{MapGoesOn};
ghost use Rattle.mapdb_script.specs.TreeAnswers.{page_answer};

use crate::answering::{Reply, ScriptCluster};
use crate::free_pages::is_free;
use crate::turn_fault::TurnFault;
use mapdb_facts::Space;
use mapdb_fpage::{Fpage, MapItem, PAGE_BYTES, Rights, transfer};
use mapdb_lines::{Line, LineFault};
use mapdb_replica::Replica;
use mapdb_tree::WIDEST_ORDER;

/// The processor whose copy is compared with the tree.
const COMPARED: u8 = 0;

/// What the sequential tree has at a page.
#[derive(Clone, Copy, Debug, PartialEq, Eq)]
pub enum TreeAnswer {
    /// There is no tree of these commands, or none that the copy is to be compared with.
    NotComparable,
    /// The page has no node.
    Nothing,
    /// The frame that is seen there, and the rights to it.
    Mapped(u64, Rights),
}

/// What a page of the tree has that shows this.
fn page_answer(found: Option<(u64, Rights)>) -> TreeAnswer
    ensures { result ≡ page_answer found }
{
    match found {
        Some((frame, rights)) => TreeAnswer::Mapped(frame, rights),
        None => TreeAnswer::Nothing,
    }
}

/// Whether a tree that goes over pages one by one can go over this part.
fn is_narrow(part: Option<Fpage>) -> bool
    ensures { result ≡ names_narrow part }
{
    match part {
        Some(part) => part.order() <= WIDEST_ORDER,
        None => true,
    }
}

/// Whether the tree goes on with a Map that the copy, which shows it, does not refuse.
fn map_goes_on(
    copy: &Replica,
    sender: Space,
    item: &MapItem,
    receiver: Space,
    window: Option<Fpage>,
) -> bool
    ensures { IsTrue result ↔ MapGoesOn copy.now sender (transfer_of item.now window) receiver }
{
    match transfer(item, window) {
        Some(carried) => {
            carried.source.order() <= WIDEST_ORDER && is_free(copy, sender, &carried, receiver)
        }
        None => true,
    }
}

impl ScriptCluster {
    ghost use Rattle.mapdb_script.specs.Accepting.{Accepted};
    ghost use Rattle.mapdb_script.specs.Answering.{tree_asked};
    ghost use Rattle.mapdb_script.specs.Standing.{CopiesStandFor, IsSoAtFirst, MapGoesOn};
    ghost use Rattle.mapdb_script.specs.Standing.{ShowsAfter};
    ghost use Rattle.mapdb_script.specs.States.{Does, beside, net_of};

    /// Whether the tree goes on with a Map at a processor, as far as its copy is compared.
    fn first_goes_on(
        &self,
        at: u8,
        sender: Space,
        item: &MapItem,
        receiver: Space,
        window: Option<Fpage>,
    ) -> bool
        ensures { IsTrue result ↔ IsSoAtFirst (net_of self.now).copies at
            (λ log. MapGoesOn log sender (transfer_of item.now window) receiver) }
    {
        if at != COMPARED {
            return true;
        }
        match self.copies.as_slice().first() {
            Some(copy) => map_goes_on(copy, sender, item, receiver, window),
            None => true,
        }
    }

    /// Whether processor 0's copy shows the tree, where it did before, once this line is done and
    /// not refused.
    pub(crate) fn shows_tree_after(&self, shows_tree: bool, line: &Line<'_>) -> bool
        ensures { ShowsAfter shows_tree (net_of self.now).copies line.now result }
    {
        match line {
            Line::Processors(_) => true,
            Line::Map {
                at,
                sender,
                item,
                receiver,
                window,
            } => { shows_tree && self.first_goes_on(*at, *sender, item, *receiver, *window) }
            Line::Unmap { at, page, .. } => { shows_tree && (*at != COMPARED || is_narrow(*page)) }
            Line::Deliver { at, .. } | Line::Merge { into: at, .. } | Line::Load { at, .. } => {
                shows_tree && *at != COMPARED
            }
            _ => shows_tree,
        }
    }

    /// Asks the sequential tree of processor 0's commands for a page.
    #[cold]
    pub(crate) fn tree(
        &self,
        shows_tree: bool,
        space: Space,
        address: u64,
    ) -> Result<Reply, TurnFault>
        ensures { (accepted : Accepted)
            → CopiesStandFor shows_tree (net_of self.now).copies accepted
            → Does result (net_of self.now) (tree_asked (beside self.now accepted) space address) }
    {
        let Some(copy) = self.copies.as_slice().first() else {
            return Err(TurnFault::Line(LineFault::NoProcessors));
        };
        if !shows_tree {
            return Ok(Reply::Tree(TreeAnswer::NotComparable));
        }
        let found = copy.served(space, address / PAGE_BYTES);
        Ok(Reply::Tree(page_answer(found)))
    }
}
