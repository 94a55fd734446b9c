//! What a line says of a layout.

ghost use Rattle.std.specs.Prelude.{◌≡◌, ◌++◌, [], ◌∷◌, OnOk};
ghost use Rattle.derived_types.specs.Layouts.{LayoutGives};
ghost use Rattle.statements.specs.Meanings.{offsets_made};

use datatypes::{IndexedBlock, Layout, LayoutRefusal};
use std::alloc::{AllocFailed, Global};
use std::marker::Model;
use tokens::Name;
use vocabulary::BasicType;

/// What a layout is made of.
#[derive(Drop)]
pub enum OldLayout {
    /// A basic type: the layout of one element of it.
    Basic(BasicType),
    /// The layout of this name.
    Named(Name),
}

/// `C B S`: blocks that stand equally far apart, counted in copies of what the layout is made of. A number that 64 bits
/// don't hold stands as the greatest that they hold.
#[derive(Clone, Copy, PartialEq, Eq)]
pub struct Stripes {
    /// How many blocks.
    pub count: u64,
    /// How many copies each block has.
    pub blocklength: u64,
    /// How far a block begins behind the one before it.
    pub stride: u64,
}

/// Blocks, in order. Contracts see them as a list. A number that 64 bits don't hold stands as the greatest that they
/// hold.
#[derive(Drop)]
pub struct Blocks {
    items: Vec<IndexedBlock>,
}

impl Model for Blocks {
    ghost use Rattle.std.specs.Prelude.{List};
    ghost use Rattle.derived_types.specs.declared.block.IndexedBlock.{IndexedBlock};

    ghost Value = { List IndexedBlock };

    ghost view = { λ b. b.items.items };
}

impl Blocks {
    /// No blocks. It takes no memory.
    pub(crate) fn new(alloc: Global) -> Blocks
        ensures { result ≡ [] }
    {
        Blocks {
            items: Vec::new(alloc),
        }
    }

    /// Adds a block at the end.
    pub(crate) fn push(&mut self, block: IndexedBlock) -> Result<(), AllocFailed<IndexedBlock>>
        ensures { OnOk result (self.new ≡ self.old ++ block ∷ []) }
    {
        self.items.push(block)
    }

    /// The blocks, in order.
    pub fn as_slice(&self) -> &[IndexedBlock]
        ensures { result.now ≡ self.now }
    {
        self.items.as_slice()
    }
}

/// How a layout is made of another one (MPI 3.1, 4.1.2).
#[derive(Drop)]
pub enum LayoutForm {
    /// `contiguous N`: so many copies, one after the other. A number that 64 bits don't hold stands as the greatest
    /// that they hold.
    Contiguous(u64),
    /// `vector C B S`: blocks that stand equally far apart.
    Vector(Stripes),
    /// `indexed LEN:DISP ..`: blocks, each at its own place.
    Indexed(Blocks),
}

impl LayoutForm {
    /// The layout that this form makes of copies of another one (MPI 3.1, 4.1.2). An error is one of 13, where a limit
    /// is passed, and of 14.
    pub fn layout_made(&self, alloc: Global, old: &Layout) -> Result<Layout, LayoutRefusal>
        ensures { LayoutGives old.now.basic (offsets_made self.now old.now.offsets) result }
    {
        match self {
            LayoutForm::Contiguous(count) => old.contiguous(alloc, *count),
            LayoutForm::Vector(stripes) => {
                old.vector(alloc, stripes.count, stripes.blocklength, stripes.stride)
            }
            LayoutForm::Indexed(blocks) => old.indexed(alloc, blocks.as_slice()),
        }
    }
}

/// `L contiguous N OLD`, `L vector C B S OLD` or `L indexed LEN:DISP .. OLD`: a layout's name, and how it is made.
#[derive(Drop)]
pub struct LayoutLine {
    /// The layout's name.
    pub name: Name,
    /// How it is made.
    pub form: LayoutForm,
    /// What it is made of.
    pub made_of: OldLayout,
}
