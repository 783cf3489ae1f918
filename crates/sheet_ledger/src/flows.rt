//! What came to each package and what left it, by some receipts.
ghost use Rattle.std.specs.Prelude.{◌≡◌, ◌-◌, ◌^◌, ℕ, List, IfOk, if◌then◌else◌};
ghost use Rattle.sheet_types.specs.Custody.{ends_at};
ghost use Rattle.sheet_ledger.specs.Flows.{flow_in, HasFlows, IsMeasured, IsAtMost, plus, comes, leaves, no_flow};

use sheet_types::receipt::Receipt;
use std::alloc::{AllocError, Global};
use std::collections::BTreeMap;
use uuid::Uuid;

/// Sums of receipts: of the items of each kind, of the links, and of the bytes.
#[derive(Clone, Copy, PartialEq, Eq)]
pub struct Totals {
    pub tiles: u128,
    pub media: u128,
    pub rows: u128,
    pub links: u128,
    pub bytes: u128,
}

/// What came to a package, and what left it.
#[derive(Clone, Copy, PartialEq, Eq)]
pub struct Flow {
    pub came: Totals,
    pub left: Totals,
}

const NOTHING: Totals = Totals {
    tiles: 0,
    media: 0,
    rows: 0,
    links: 0,
    bytes: 0,
};

// A law: the counts and the bytes of a receipt have 64 bits. Changes nothing and takes no memory.
fn is_measured(receipt: &Receipt)
    ensures { IsMeasured receipt.now }
{
    let _tiles = receipt.tiles;
    let _media = receipt.media;
    let _rows = receipt.rows;
    let _links = receipt.links;
    let _bytes = receipt.bytes;
}

// The sums with one receipt more.
fn with_receipt(totals: &Totals, receipt: &Receipt) -> Totals
    requires { IsAtMost (2 ^ 128 - 2 ^ 64) totals.now }
    ensures { result ≡ plus totals.now receipt.now }
{
    is_measured(receipt);
    Totals {
        tiles: totals.tiles + u128::from(receipt.tiles),
        media: totals.media + u128::from(receipt.media),
        rows: totals.rows + u128::from(receipt.rows),
        links: totals.links + u128::from(receipt.links),
        bytes: totals.bytes + u128::from(receipt.bytes),
    }
}

/// What came to a package and what left it, by the flows noted; nothing where none is noted.
pub fn flow_of(flows: &BTreeMap<Uuid, Flow>, package: Uuid) -> Flow
    ensures { result ≡ flow_in flows.now «package» }
{
    match flows.get(&package) {
        Some(flow) => *flow,
        None => Flow {
            came: NOTHING,
            left: NOTHING,
        },
    }
}

// Notes what came by a receipt.
fn note_coming(flows: &mut BTreeMap<Uuid, Flow>, receipt: &Receipt) -> Result<(), AllocError>
    requires { (p : List ℕ) → IsAtMost (2 ^ 128 - 2 ^ 64) (flow_in flows.old p).came }
    ensures { IfOk result (λ _. (p : List ℕ) → flow_in flows.new p
        ≡ (if ends_at receipt.now.target p then comes (flow_in flows.old p) receipt.now else flow_in flows.old p)) }
{
    let Some(target) = receipt.target else {
        return Ok(());
    };
    let flow = flow_of(flows, target);
    let more = Flow {
        came: with_receipt(&flow.came, receipt),
        left: flow.left,
    };
    flows.insert(target, more)?;
    Ok(())
}

// Notes what left by a receipt.
fn note_leaving(flows: &mut BTreeMap<Uuid, Flow>, receipt: &Receipt) -> Result<(), AllocError>
    requires { (p : List ℕ) → IsAtMost (2 ^ 128 - 2 ^ 64) (flow_in flows.old p).left }
    ensures { IfOk result (λ _. (p : List ℕ) → flow_in flows.new p
        ≡ (if ends_at receipt.now.source p then leaves (flow_in flows.old p) receipt.now else flow_in flows.old p)) }
{
    let Some(source) = receipt.source else {
        return Ok(());
    };
    let flow = flow_of(flows, source);
    let more = Flow {
        came: flow.came,
        left: with_receipt(&flow.left, receipt),
    };
    flows.insert(source, more)?;
    Ok(())
}

/// For each package the sums of the receipts that have it as target, and of those that have it as source.
///
/// # Errors
///
/// Want of memory.
pub fn flows(alloc: Global, receipts: &[Receipt]) -> Result<BTreeMap<Uuid, Flow>, AllocError>
    ensures { IfOk result (λ flows. HasFlows flows receipts.now) }
{
    let mut flows = BTreeMap::new(alloc);
    for receipt in receipts {
        is_measured(receipt);
        note_coming(&mut flows, receipt)?;
        note_leaving(&mut flows, receipt)?;
    }
    Ok(flows)
}
