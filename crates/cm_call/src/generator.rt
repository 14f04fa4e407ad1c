//! The manifests of a generated workload: a tree in which each instance has up to four children and
//! uses a protocol of its parent. The instances are counted from 0, which is the root.

ghost use Rattle.std.specs.Prelude.{◌≡◌, ◌++◌, ◌≤◌, ◌<◌, ◌∷◌, [], IfOk, OnOk, decimal, map};
ghost use Rattle.std.specs.Prelude.{nat_lt, if◌then◌else◌};
ghost use Rattle.std.specs.List.{range_with_len};
ghost use Rattle.cm_names.specs.Path.{service_path};
ghost use Rattle.cm_read.specs.Writing.{decl_text};
ghost use Rattle.cm_call.specs.Generated as spec;

use cm_command::Block;
use cm_decl::{Capability, Child, Decl, Give, Kind, Offer, Origin, Usage};
use cm_names::{Availability, Bytes, CapPath, Dependency, List, Memory, Name, Text};
use cm_read::write_decl;
use std::alloc::Global;

/// A name, where the text is one; lack of memory else, which the generator's own never are.
fn read_name(alloc: Global, text: &Text) -> Result<Name, Memory>
    ensures { IfOk result (λ name. name ≡ text.now) }
{
    match Name::read(alloc, text.as_str()) {
        Ok(name) => Ok(name),
        Err(_) => Err(Memory),
    }
}

/// The name of an instance of the workload, by its number. `Err` where memory runs out.
pub fn name_of(alloc: Global, instance: usize) -> Result<Name, Memory>
    ensures { IfOk result (λ name. name ≡ spec.name_of instance) }
{
    let mut text = Text::new(alloc);
    text.push(format_args!("i{instance}"))?;
    read_name(alloc, &text)
}

/// The URL of an instance of the workload, by its number. `Err` where memory runs out.
pub fn url_of(alloc: Global, instance: usize) -> Result<Text, Memory>
    ensures { IfOk result (λ url. url ≡ spec.url_of instance) }
{
    let mut url = Text::new(alloc);
    url.push(format_args!("fuchsia-pkg://gen/p#meta/{instance}.cm"))?;
    Ok(url)
}

/// The protocol that an instance declares, and that its children use.
fn protocol_of(alloc: Global, instance: usize) -> Result<Name, Memory>
    ensures { IfOk result (λ name. name ≡ spec.protocol_of instance) }
{
    let mut text = Text::new(alloc);
    text.push(format_args!("p.{instance}"))?;
    read_name(alloc, &text)
}

/// The path that the protocol of an instance stands at.
pub fn path_of(alloc: Global, instance: usize) -> Result<CapPath, Memory>
    ensures { IfOk result (λ path. path ≡ service_path (spec.protocol_of instance)) }
{
    let name = protocol_of(alloc, instance)?;
    CapPath::service(alloc, &name)
}

/// The children of an instance among so many instances.
#[tactic(auto, using(crate::proofs::lemmas::texts::Generator::kids_more))]
fn kids_of(alloc: Global, size: usize, instance: usize) -> Result<List<usize>, Memory>
    requires { instance ≤ 10000 }
    ensures { IfOk result (λ kids. kids ≡ spec.kids_of size instance) }
{
    let mut kids = List::new(alloc);
    for place in 0..4_usize {
        push_below(&mut kids, size, instance * 4 + 1 + place)?;
    }
    Ok(kids)
}

/// Puts an instance after these, if it is one of so many.
fn push_below(kids: &mut List<usize>, size: usize, kid: usize) -> Result<(), Memory>
    ensures { OnOk result (kids.new ≡ kids.old ++ (if nat_lt kid size then kid ∷ [] else [])) }
{
    if kid < size {
        return kids.push(kid);
    }
    Ok(())
}

/// What an instance's parent declares of it.
fn child_row(alloc: Global, kid: usize) -> Result<Child, Memory>
    ensures { IfOk result (λ row. row ≡ spec.child_row kid) }
{
    let name = name_of(alloc, kid)?;
    let url = url_of(alloc, kid)?;
    Ok(Child {
        name,
        url,
        eager: false,
        environment: None,
    })
}

/// The protocol of an instance, given to a child.
fn give_row(alloc: Global, instance: usize) -> Result<Give, Memory>
    ensures { IfOk result (λ row. row ≡ spec.give_row instance) }
{
    let source_name = protocol_of(alloc, instance)?;
    let target_name = source_name.clone()?;
    Ok(Give {
        kind: Kind::Protocol,
        source_name,
        from: Origin::Own,
        target_name,
        rights: None,
        subdir: None,
        dependency: Dependency::Strong,
        availability: Availability::Required,
    })
}

/// The protocol of an instance, offered to this child.
fn offer_row(alloc: Global, instance: usize, kid: usize) -> Result<Offer, Memory>
    ensures { IfOk result (λ row. row ≡ spec.offer_row instance kid) }
{
    let to = name_of(alloc, kid)?;
    let give = give_row(alloc, instance)?;
    Ok(Offer { to, give })
}

/// What the parent of these instances declares of them.
fn child_rows(alloc: Global, kids: &[usize]) -> Result<List<Child>, Memory>
    ensures { IfOk result (λ rows. rows ≡ map spec.child_row kids.now) }
{
    let mut rows = List::new(alloc);
    for kid in kids {
        rows.push(child_row(alloc, *kid)?)?;
    }
    Ok(rows)
}

/// The protocol of an instance, offered to each of these children.
fn offer_rows(alloc: Global, instance: usize, kids: &[usize]) -> Result<List<Offer>, Memory>
    ensures { IfOk result (λ rows. rows ≡ map (spec.offer_row instance) kids.now) }
{
    let mut rows = List::new(alloc);
    for kid in kids {
        rows.push(offer_row(alloc, instance, *kid)?)?;
    }
    Ok(rows)
}

/// The one capability of an instance: its protocol.
fn capability_rows(alloc: Global, instance: usize) -> Result<List<Capability>, Memory>
    ensures { IfOk result (λ rows. rows ≡ spec.capability_row instance ∷ []) }
{
    let name = protocol_of(alloc, instance)?;
    let path = path_of(alloc, instance)?;
    let mut rows = List::new(alloc);
    rows.push(Capability {
        kind: Kind::Protocol,
        name,
        path,
        rights: None,
    })?;
    Ok(rows)
}

/// The use of the protocol of this parent.
fn use_row(alloc: Global, parent: usize) -> Result<Usage, Memory>
    ensures { IfOk result (λ row. row ≡ spec.use_row parent) }
{
    let name = protocol_of(alloc, parent)?;
    let path = path_of(alloc, parent)?;
    Ok(Usage {
        kind: Kind::Protocol,
        name,
        from: Origin::Parent,
        path,
        rights: None,
        subdir: None,
        dependency: Dependency::Strong,
        availability: Availability::Required,
    })
}

/// What an instance uses: the protocol of its parent, and nothing at the root.
fn use_rows(alloc: Global, instance: usize) -> Result<List<Usage>, Memory>
    ensures { IfOk result (λ rows. rows ≡ spec.use_rows instance) }
{
    let mut rows = List::new(alloc);
    if instance == 0 {
        return Ok(rows);
    }
    rows.push(use_row(alloc, (instance - 1) / 4)?)?;
    Ok(rows)
}

/// What an instance of so many declares.
fn decl_of(alloc: Global, size: usize, instance: usize) -> Result<Decl, Memory>
    requires { instance ≤ 10000 }
    ensures { IfOk result (λ decl. decl ≡ spec.decl_of size instance) }
{
    let runner = read_name(alloc, &Text::from_str(alloc, "gen")?)?;
    let kids = kids_of(alloc, size, instance)?;
    let children = child_rows(alloc, kids.as_slice())?;
    let offers = offer_rows(alloc, instance, kids.as_slice())?;
    let capabilities = capability_rows(alloc, instance)?;
    let uses = use_rows(alloc, instance)?;
    Ok(Decl {
        runner: Some(runner),
        children,
        collections: List::new(alloc),
        capabilities,
        uses,
        offers,
        exposes: List::new(alloc),
        environments: List::new(alloc),
        debug_uses: List::new(alloc),
        storages: List::new(alloc),
        storage_uses: List::new(alloc),
        storage_offers: List::new(alloc),
    })
}

/// The text of a declaration, which is given back to memory here.
fn text_of(alloc: Global, decl: Decl) -> Result<Text, Memory>
    ensures { IfOk result (λ text. text ≡ decl_text decl) }
{
    let text = write_decl(alloc, &decl);
    drop(decl);
    text
}

/// The manifest of an instance of so many, which is the text of its declaration.
fn block_of(alloc: Global, size: usize, instance: usize) -> Result<Block, Memory>
    requires { instance ≤ 10000 }
    ensures { IfOk result (λ block. block ≡ spec.block_of size instance) }
{
    let decl = decl_of(alloc, size, instance)?;
    let text = text_of(alloc, decl)?;
    let mut bytes = Bytes::new(alloc);
    bytes.extend_from_slice(text.as_str().as_bytes())?;
    let url = url_of(alloc, instance)?;
    Ok(Block {
        line: 0,
        url,
        bytes,
    })
}

/// The manifests of so many instances.
#[tactic(auto, using(crate::proofs::lemmas::texts::Generator::made_more))]
pub fn blocks_of(alloc: Global, size: usize) -> Result<List<Block>, Memory>
    requires { size ≤ 10000 }
    ensures { IfOk result (λ blocks. blocks ≡ map (spec.block_of size) (range_with_len 0 size)) }
{
    let mut blocks = List::new(alloc);
    for instance in 0..size {
        blocks.push(block_of(alloc, size, instance)?)?;
    }
    Ok(blocks)
}
