//! The search for a cheapest naming. The blocks are named one after the other. To name one more, a tree of blocks
//! grows from it: always the nearest PE is scanned, and the block that holds it joins the tree. When the nearest PE
//! is free, the prices are changed once, and the path to it is augmented: each block on it takes the next PE on it.
//! This is the method of shortest augmenting paths: J. Munkres, "Algorithms for the assignment and transportation
//! problems", Journal of the Society for Industrial and Applied Mathematics 5(1), 1957; R. Jonker and A. Volgenant, "A
//! shortest augmenting path algorithm for dense and sparse linear assignment problems", Computing 38, 1987.

ghost use Rattle.std.specs.Prelude.{◌≡◌, ℕ, ◌+◌, ◌^◌, ◌<◌, ◌≤◌, length, slice_index, slice_index_or, set, replicate, IfOk, IfSome, MatchOption, Some, None};
ghost use Rattle.block_assignment.specs.Table.{cost_at};
ghost use Rattle.block_assignment.specs.Search.{State, IsSized, IsMatched, IsTree, IsPath, IsSmall, IsNearest, IsRaised, IsUnscanned, unscanned};

use crate::costs::Costs;
use crate::scan::{Joining, scan};
use crate::to_scan::{list_all, take_out};
use std::alloc::{AllocError, Allocator};
use std::marker::Model;

/// The names so far, their prices, and the tree that looks for the next name.
#[derive(Drop)]
pub(crate) struct Search<'t, A: Allocator> {
    // What each block costs on each PE.
    table: &'t Costs<'t>,
    // How many blocks have a name, and the names.
    named: usize,
    names: Vec<u32, A>,
    // The block of each PE.
    holders: Vec<Option<u32>, A>,
    // The price of each block: its dual value u.
    price: Vec<u64, A>,
    // The discount of each PE: its dual value v with the sign changed, so that it is 0 or more. No price is above the
    // block's cost on a PE plus the PE's discount; on the block's own PE it is just that.
    discount: Vec<u64, A>,
    // When each PE was scanned, counted from 1, and 0 where it was not.
    rank: Vec<u32, A>,
    // How far each PE is from the root of the tree: the sum of the reduced costs (cost plus discount less price) along
    // the shortest path to it.
    distance: Vec<u64, A>,
    // The block before each PE on that path.
    from: Vec<u32, A>,
}

impl<'t, A: Allocator> Model for Search<'t, A> {
    ghost Value = { State };

    ghost view = { λ s. record {
      table = s.table.now;
      named = s.named;
      names = s.names.items;
      holders = s.holders.items;
      price = s.price.items;
      discount = s.discount.items;
      rank = s.rank.items;
      distance = s.distance.items;
      from = s.from.items;
    } };
}

impl<'t, A: Allocator + Copy> Search<'t, A> {
    /// A search in which no block has a name.
    pub(crate) fn new(alloc: A, table: &'t Costs<'t>) -> Result<Self, AllocError>
        ensures table { IfOk result (λ s. s.table ≡ table.now) }
        ensures sized { IfOk result IsSized }
        ensures matched { IfOk result IsMatched }
        ensures small { IfOk result IsSmall }
        ensures none_named { IfOk result (λ s. s.named ≡ 0) }
    {
        let blocks = table.blocks() as usize;
        let (names, holders) = no_names(alloc, blocks)?;
        let (price, discount) = no_prices(alloc, blocks)?;
        let (rank, distance, from) = no_tree(alloc, blocks)?;
        Ok(Search {
            table,
            named: 0,
            names,
            holders,
            price,
            discount,
            rank,
            distance,
            from,
        })
    }
}

impl<A: Allocator> Search<'_, A> {
    /// Names the first block that has no name, and returns how many PEs it scanned, which says how long it took. Its tree
    /// reaches a free PE before it has scanned all. `to_scan` is room for the PEs that the tree has not scanned.
    pub(crate) fn name_next(&mut self, to_scan: &mut [u32]) -> u32
        requires sized { IsSized self.old }
        requires matched { IsMatched self.old }
        requires unnamed { self.old.named < self.old.table.blocks }
        requires room { length to_scan.old ≡ self.old.table.blocks }
        ensures sized { IsSized self.new }
        ensures matched { IsMatched self.new }
        ensures small { IsSmall self.new }
        ensures table { self.new.table ≡ self.old.table }
        ensures named { self.new.named ≡ self.old.named + 1 }
    {
        list_all(to_scan);
        let mut count = to_scan.len();
        let mut nearest = self.start_tree(to_scan);
        let mut rank = 1;
        while let Some(place) = nearest {
            let pe = to_scan[..count][place];
            let Some(block) = self.holders[pe as usize] else {
                self.raise(pe, rank);
                self.augment(pe);
                return rank;
            };
            take_out(to_scan, count, place);
            count -= 1;
            nearest = self.grow(&to_scan[..count], block, pe, rank);
            rank += 1;
        }
        rank
    }

    /// The names, the price of each block and the discount of each PE.
    pub(crate) fn into_parts(self) -> (Vec<u32, A>, Vec<u64, A>, Vec<u64, A>)
        ensures names { result.0.items ≡ self.entry.names }
        ensures price { result.1.items ≡ self.entry.price }
        ensures discount { result.2.items ≡ self.entry.discount }
    {
        (self.names, self.price, self.discount)
    }

    // Starts a tree of the next block alone, and returns the place of the nearest PE in the list, which has all.
    fn start_tree(&mut self, to_scan: &[u32]) -> Option<usize>
        requires sized { IsSized self.old }
        requires matched { IsMatched self.old }
        requires unnamed { self.old.named < self.old.table.blocks }
        requires counted { length to_scan.now ≡ self.old.table.blocks }
        requires each { (p : ℕ) → p < self.old.table.blocks → slice_index to_scan.now p ≡ p }
        ensures sized { IsSized self.new }
        ensures matched { IsMatched self.new }
        ensures tree { IsTree 1 self.new }
        ensures table { self.new.table ≡ self.old.table }
        ensures named { self.new.named ≡ self.old.named }
        ensures unscanned { unscanned self.new.rank ≡ self.old.table.blocks }
        ensures listed { IsUnscanned self.new.rank to_scan.now self.old.table.blocks }
        ensures nearest { MatchOption result
            ((p : ℕ) → p < self.old.table.blocks → 0 < slice_index self.new.rank p)
            (λ place. IsNearest self.new.rank self.new.distance self.old.table.blocks (slice_index to_scan.now place)) }
        ensures inside { IfSome result (λ place. place < length to_scan.now) }
    {
        let root = self.named;
        self.rank.fill(0);
        self.distance.fill(u64::MAX);
        let joining = Joining {
            block: root as u32,
            price: self.price[root],
            distance: 0,
        };
        scan(
            joining,
            self.table.row(root as u32),
            &self.discount,
            &self.rank,
            to_scan,
            &self.holders,
            &mut self.distance,
            &mut self.from,
        )
    }

    // Scans the nearest PE, which the list no longer has, adds the block that holds it to the tree, and returns the place
    // of the PE that is nearest then.
    fn grow(&mut self, to_scan: &[u32], block: u32, pe: u32, rank: u32) -> Option<usize>
        requires sized { IsSized self.old }
        requires matched { IsMatched self.old }
        requires tree { IsTree rank self.old }
        requires unnamed { self.old.named < self.old.table.blocks }
        requires nearest { IsNearest self.old.rank self.old.distance self.old.table.blocks pe }
        requires held { slice_index_or self.old.holders pe None ≡ Some block }
        requires listed { IsUnscanned (set self.old.rank pe rank) to_scan.now self.old.table.blocks }
        ensures sized { IsSized self.new }
        ensures matched { IsMatched self.new }
        ensures tree { IsTree (rank + 1) self.new }
        ensures table { self.new.table ≡ self.old.table }
        ensures named { self.new.named ≡ self.old.named }
        ensures unscanned { unscanned self.new.rank + 1 ≡ unscanned self.old.rank }
        ensures listed { IsUnscanned self.new.rank to_scan.now self.old.table.blocks }
        ensures nearest { MatchOption result
            ((p : ℕ) → p < self.old.table.blocks → 0 < slice_index self.new.rank p)
            (λ place. IsNearest self.new.rank self.new.distance self.old.table.blocks (slice_index to_scan.now place)) }
        ensures inside { IfSome result (λ place. place < length to_scan.now) }
    {
        self.rank[pe as usize] = rank;
        let joining = Joining {
            block,
            price: self.price[block as usize],
            distance: self.distance[pe as usize],
        };
        scan(
            joining,
            self.table.row(block),
            &self.discount,
            &self.rank,
            to_scan,
            &self.holders,
            &mut self.distance,
            &mut self.from,
        )
    }

    // Scans the nearest PE, which is free, and changes the prices: the price of each block of the tree rises by as much
    // as this PE is farther from the root than the block, and the discount of each PE that was scanned by as much as the
    // price of its block.
    fn raise(&mut self, pe: u32, rank: u32)
        requires sized { IsSized self.old }
        requires matched { IsMatched self.old }
        requires tree { IsTree rank self.old }
        requires unnamed { self.old.named < self.old.table.blocks }
        requires nearest { IsNearest self.old.rank self.old.distance self.old.table.blocks pe }
        requires free { slice_index_or self.old.holders pe None ≡ None }
        ensures sized { IsSized self.new }
        ensures matched { IsMatched self.new }
        ensures path { IsPath self.new }
        ensures scanned { 0 < slice_index self.new.rank pe }
        ensures table { self.new.table ≡ self.old.table }
        ensures named { self.new.named ≡ self.old.named }
        ensures holders { self.new.holders ≡ self.old.holders }
    {
        let root = self.named;
        let reach = self.distance[pe as usize];
        self.rank[pe as usize] = rank;
        raise_prices(
            &self.names[..root],
            &self.rank,
            &self.distance,
            reach,
            &mut self.price,
        );
        self.price[root] += reach;
        raise_discounts(&self.rank, &self.distance, reach, &mut self.discount);
    }

    // Augments along the path to a free PE: the block before it takes it, the block before that takes the PE of that
    // block, and so on to the root.
    fn augment(&mut self, free: u32)
        requires sized { IsSized self.old }
        requires matched { IsMatched self.old }
        requires path { IsPath self.old }
        requires unnamed { self.old.named < self.old.table.blocks }
        requires inside { free < self.old.table.blocks }
        requires free { slice_index_or self.old.holders free None ≡ None }
        requires scanned { 0 < slice_index self.old.rank free }
        ensures sized { IsSized self.new }
        ensures matched { IsMatched self.new }
        ensures table { self.new.table ≡ self.old.table }
        ensures named { self.new.named ≡ self.old.named + 1 }
        ensures price { self.new.price ≡ self.old.price }
        ensures discount { self.new.discount ≡ self.old.discount }
    {
        let mut pe = free;
        let mut b = self.from[pe as usize] as usize;
        while b < self.named {
            let before = self.names[b];
            self.names[b] = pe;
            self.holders[pe as usize] = Some(b as u32);
            pe = before;
            b = self.from[pe as usize] as usize;
        }
        self.names[self.named] = pe;
        self.holders[pe as usize] = Some(self.named as u32);
        self.named += 1;
    }
}

// Room for the names, and PEs that no block has.
fn no_names<A: Allocator + Copy>(
    alloc: A,
    blocks: usize,
) -> Result<(Vec<u32, A>, Vec<Option<u32>, A>), AllocError>
    ensures names { IfOk result (λ lists. length lists.0.items ≡ blocks) }
    ensures holders { IfOk result (λ lists. lists.1.items ≡ replicate blocks None) }
{
    let names = vec![in alloc; 0; blocks]?;
    let holders = vec![in alloc; None; blocks]?;
    Ok((names, holders))
}

// Prices and discounts of 0.
fn no_prices<A: Allocator + Copy>(
    alloc: A,
    blocks: usize,
) -> Result<(Vec<u64, A>, Vec<u64, A>), AllocError>
    ensures price { IfOk result (λ lists. lists.0.items ≡ replicate blocks 0) }
    ensures discount { IfOk result (λ lists. lists.1.items ≡ replicate blocks 0) }
{
    let price = vec![in alloc; 0; blocks]?;
    let discount = vec![in alloc; 0; blocks]?;
    Ok((price, discount))
}

// Room for a tree: when each PE was scanned, how far it is from the root, and the block before it.
fn no_tree<A: Allocator + Copy>(
    alloc: A,
    blocks: usize,
) -> Result<(Vec<u32, A>, Vec<u64, A>, Vec<u32, A>), AllocError>
    ensures rank { IfOk result (λ lists. length lists.0.items ≡ blocks) }
    ensures distance { IfOk result (λ lists. length lists.1.items ≡ blocks) }
    ensures from { IfOk result (λ lists. length lists.2.items ≡ blocks) }
{
    let rank = vec![in alloc; 0; blocks]?;
    let distance = vec![in alloc; 0; blocks]?;
    let from = vec![in alloc; 0; blocks]?;
    Ok((rank, distance, from))
}

// Raises the price of each block of the tree but the root by as much as the tree reached past its PE.
fn raise_prices(names: &[u32], rank: &[u32], distance: &[u64], reach: u64, price: &mut [u64])
    requires few { length names.now ≤ length price.old }
    requires counted { length distance.now ≡ length rank.now }
    requires below { (b : ℕ) → b < length names.now → slice_index names.now b < length rank.now }
    requires reached { (p : ℕ) → p < length rank.now → 0 < slice_index rank.now p → slice_index distance.now p ≤ reach }
    requires small { (b : ℕ) → b < length price.old → slice_index price.old b + reach < 2 ^ 64 }
    ensures named { (b : ℕ) → b < length names.now → IsRaised (slice_index rank.now (slice_index names.now b)) (slice_index distance.now (slice_index names.now b)) reach
        (slice_index price.old b) (slice_index price.new b) }
    ensures others { (b : ℕ) → length names.now ≤ b → slice_index price.new b ≡ slice_index price.old b }
{
    for b in 0..names.len() {
        let pe = names[b] as usize;
        if rank[pe] > 0 {
            price[b] += reach - distance[pe];
        }
    }
}

// Raises the discount of each PE that was scanned by as much as the tree reached past it.
fn raise_discounts(rank: &[u32], distance: &[u64], reach: u64, discount: &mut [u64])
    requires counted { length rank.now ≡ length discount.old }
    requires distances { length distance.now ≡ length discount.old }
    requires reached { (p : ℕ) → p < length rank.now → 0 < slice_index rank.now p → slice_index distance.now p ≤ reach }
    requires small { (p : ℕ) → p < length discount.old → slice_index discount.old p + reach < 2 ^ 64 }
    ensures { (p : ℕ) → p < length discount.old → IsRaised (slice_index rank.now p) (slice_index distance.now p) reach
        (slice_index discount.old p) (slice_index discount.new p) }
{
    for p in 0..discount.len() {
        if rank[p] > 0 {
            discount[p] += reach - distance[p];
        }
    }
}
