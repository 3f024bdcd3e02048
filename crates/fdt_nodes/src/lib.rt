// The nodes of a flattened devicetree, one token at a time, with a small state.

#![tactic(auto)]

ghost use Rattle.std.specs.Prelude.{◌≡◌, ◌%◌, ◌==◌, not};
ghost use Rattle.fdt_tokens.specs.Devicetree.{one_or_two};
ghost use Rattle.fdt_nodes.specs.Nodes.{first_named, cell_at, is_memory, width, pair_bytes, ragged_reg, begin_node, end_node, root_property, child_property, property, ended, advance};
ghost use Rattle.fdt_nodes.specs.Scan.{started, judged, at_pair};

use fdt_tokens::{Event, Lexer, be32, begins_with, is_done, terminated};

// The first property of a name in a node: its length, and a number that its name decides (the cell, whether the value is "memory", where
// the value stands). (No Option: of a name that was not seen the default counts, which is a length and a number too. One number for
// each of the three, so that one struct and one function serve them.)
#[derive(Clone, Copy, Default)]
pub struct First {
    pub seen: bool,
    pub length: u32,
    pub value: u32,
}

impl First {
    // A property whose name is `text`, or another.
    #[tactic(auto, unfolding(crate::specs::Nodes::first_named, crate::specs::Nodes::first_kept))]
    fn keep_named(&mut self, strings: &[u8], name: u32, text: &[u8], length: u32, value: u32)
        ensures { self.new ≡ first_named strings.now name text.now self.old length value }
    {
        if !self.seen && begins_with(strings, name as usize, text) {
            *self = First {
                seen: true,
                length,
                value,
            };
        }
    }

    // Whether a device_type is "memory".
    #[tactic(auto, unfolding(crate::specs::Nodes::is_memory))]
    fn is_memory(&self) -> bool
        ensures { result ≡ is_memory self.now }
    {
        self.length == 7 && self.value == 1
    }
}

// The cell at `at`, in a value of four bytes.
#[tactic(auto, unfolding(crate::specs::Nodes::cell_at))]
fn cell(block: &[u8], at: u32, length: u32) -> u32
    ensures { result ≡ cell_at block.now at length }
{
    if length == 4 {
        be32(block, at as usize)
    } else {
        0
    }
}

#[tactic(auto, unfolding(fdt_tokens::specs::Devicetree::one_or_two))]
fn is_count(n: u32) -> bool
    ensures { result ≡ one_or_two n }
{
    n == 1 || n == 2
}

// The bytes of one cell, or of two.
#[tactic(auto, unfolding(crate::specs::Nodes::width))]
pub fn cells_width(n: u32) -> u32
    ensures { result ≡ width n }
{
    if n == 1 { 4 } else { 8 }
}

// The bytes of a pair. (Two counts and no struct: each is a property's value, and stands in `Nodes` as one.)
#[tactic(auto, unfolding(crate::specs::Nodes::pair_bytes, crate::specs::Nodes::width))]
pub fn bytes_of_pair(address: u32, size: u32) -> u32
    ensures { result ≡ pair_bytes address size }
{
    cells_width(address) + cells_width(size)
}

// Whether a reg is no whole number of pairs, where both counts are 1 or 2.
#[tactic(auto, unfolding(crate::specs::Nodes::ragged_reg, crate::specs::Nodes::pair_bytes, crate::specs::Nodes::width))]
fn ragged_reg(length: u32, address: u32, size: u32) -> bool
    ensures { result ≡ ragged_reg length address size }
{
    is_count(address) && is_count(size) && is_ragged(length, address, size)
}

// (By constants: where the compiler does not see that a divisor is not 0, it keeps an instruction that traps.)
#[tactic(auto, unfolding(crate::specs::Nodes::pair_bytes, crate::specs::Nodes::width))]
fn is_ragged(length: u32, address: u32, size: u32) -> bool
    ensures { result ≡ not (length % pair_bytes address size == 0) }
{
    match (address == 1, size == 1) {
        (true, true) => length % 8 != 0,
        (false, false) => length % 16 != 0,
        _ => length % 12 != 0,
    }
}

// The nodes up to a place in the structure block; `ok` until a token is misplaced. (No `Result`: `advance`, on which
// the theorems of `fdt_tree` stand, goes on with `ok` false.) `props` where the last token begins a node or is a property; `kind` and `reg` are of the
// child of the root that was begun last.
#[derive(Clone, Copy)]
pub struct Nodes {
    pub ok: bool,
    pub depth: u64,
    pub props: bool,
    pub rooted: bool,
    pub address: First,
    pub size: First,
    pub kind: First,
    pub reg: First,
}

// (The blocks and the place are parameters of their own: of a struct that holds references each clause would say `place.entry.block.now`.)
impl Nodes {
    // FDT_BEGIN_NODE.
    #[tactic(auto, unfolding(crate::specs::Nodes::begin_node, crate::specs::Nodes::bad_nodes))]
    fn begin_node(&mut self)
        ensures { self.new ≡ begin_node self.old }
    {
        if self.depth == 0 && self.rooted {
            self.ok = false;
            return;
        }
        self.props = true;
        if self.depth == 0 {
            self.depth = 1;
            self.rooted = true;
        } else if self.depth == 1 {
            self.depth = 2;
            self.kind = First::default();
            self.reg = First::default();
        } else {
            self.depth = self.depth.wrapping_add(1);
        }
    }

    // FDT_END_NODE. Of a memory child of the root the reg is judged.
    #[tactic(auto, unfolding(crate::specs::Nodes::end_node, crate::specs::Nodes::child_end, crate::specs::Nodes::bad_nodes))]
    fn end_node(&mut self)
        ensures { self.new ≡ end_node self.old }
    {
        if self.depth == 0 {
            self.ok = false;
            return;
        }
        self.depth -= 1;
        self.props = false;
        let ends_memory = self.depth == 1 && self.kind.is_memory();
        if ends_memory && ragged_reg(self.reg.length, self.address.value, self.size.value) {
            self.ok = false;
        }
    }

    #[tactic(auto, unfolding(crate::specs::Nodes::root_property))]
    fn root_property(&mut self, block: &[u8], strings: &[u8], at: u32, length: u32, name: u32)
        ensures { self.new ≡ root_property block.now strings.now at self.old length name }
    {
        let value = cell(block, at, length);
        self.address
            .keep_named(strings, name, b"#address-cells\0", length, value);
        self.size
            .keep_named(strings, name, b"#size-cells\0", length, value);
    }

    #[tactic(auto, unfolding(crate::specs::Nodes::child_property, crate::specs::Nodes::flag))]
    fn child_property(&mut self, block: &[u8], strings: &[u8], at: u32, length: u32, name: u32)
        ensures { self.new ≡ child_property block.now strings.now at self.old length name }
    {
        let memory = u32::from(begins_with(block, at as usize, b"memory\0"));
        self.kind
            .keep_named(strings, name, b"device_type\0", length, memory);
        self.reg.keep_named(strings, name, b"reg\0", length, at);
    }

    // FDT_PROP, with its value from `at` on.
    #[tactic(auto, unfolding(crate::specs::Nodes::property, crate::specs::Nodes::bad_nodes))]
    fn property(&mut self, block: &[u8], strings: &[u8], at: u32, length: u32, name: u32)
        ensures { self.new ≡ property block.now strings.now at self.old length name }
    {
        if !self.props || !terminated(strings, name as usize) {
            self.ok = false;
        } else if self.depth == 1 {
            self.root_property(block, strings, at, length, name);
        } else if self.depth == 2 {
            self.child_property(block, strings, at, length, name);
        }
    }

    // FDT_END.
    #[tactic(auto, unfolding(crate::specs::Nodes::ended, crate::specs::Nodes::bad_nodes))]
    fn end(&mut self)
        ensures { self.new ≡ ended self.old }
    {
        if self.depth != 0 || !self.rooted {
            self.ok = false;
        }
    }

    // One token, or none.
    #[tactic(auto, unfolding(crate::specs::Nodes::advance))]
    pub fn met(&mut self, block: &[u8], strings: &[u8], at: u32, event: Option<Event>)
        ensures { self.new ≡ advance block.now strings.now at self.old event }
    {
        match event {
            None => {}
            Some(Event::Begin) => self.begin_node(),
            Some(Event::EndNode) => self.end_node(),
            Some(Event::Prop(length, name)) => self.property(block, strings, at, length, name),
            Some(Event::End) => self.end(),
        }
    }

    // Whether a token ends a memory child of the root that has a pair.
    #[tactic(auto, unfolding(crate::specs::Scan::at_pair, crate::specs::Scan::has_pair))]
    pub fn at_pair(&self, event: Option<Event>) -> bool
        ensures { result ≡ at_pair event self.now }
    {
        matches!(event, Some(Event::EndNode))
            && self.depth == 1
            && self.kind.is_memory()
            && bytes_of_pair(self.address.value, self.size.value) <= self.reg.length
    }
}

// The structure block up to a place.
#[derive(Clone, Copy)]
pub struct Scan {
    pub lexer: Lexer,
    pub nodes: Nodes,
}

#[tactic(auto, unfolding(crate::specs::Scan::started))]
pub fn start() -> Scan
    ensures { result ≡ started }
{
    Scan {
        lexer: Lexer::Token,
        nodes: Nodes {
            ok: true,
            depth: 0,
            props: false,
            rooted: false,
            address: First {
                seen: false,
                length: 4,
                value: 2,
            },
            size: First {
                seen: false,
                length: 4,
                value: 1,
            },
            kind: First::default(),
            reg: First::default(),
        },
    }
}

// Why a slice says nothing of memory: it is no blob (21), or its root's cell counts are other than 1 and 2 (22).
#[derive(Clone, Copy, Debug, PartialEq, Eq)]
pub enum DevicetreeError {
    Invalid,
    UnsupportedCellCounts,
}

// What the whole structure block comes to: 21 before 22.
#[tactic(auto, unfolding(crate::specs::Scan::judged))]
pub fn judge(lexer: Lexer, nodes: Nodes) -> Result<(), DevicetreeError>
    ensures { result ≡ judged lexer nodes }
{
    if !is_done(lexer) || !nodes.ok || nodes.address.length != 4 || nodes.size.length != 4 {
        return Err(DevicetreeError::Invalid);
    }
    if !is_count(nodes.address.value) || !is_count(nodes.size.value) {
        return Err(DevicetreeError::UnsupportedCellCounts);
    }
    Ok(())
}
