//! Manifests by URL.

ghost use Rattle.std.specs.Prelude.{◌≡◌, [], Some, Ok, OnOk, OnErr, IfOk, IfErr, IfSome, IsTrue};
ghost use Rattle.std.specs.Prelude.{string_bytes};
ghost use Rattle.std.specs.Option.{option_copied};
ghost use Rattle.cm_repo.specs.Answers.{IsRepoRefusal, GivesUnless};
ghost use Rattle.cm_repo.specs.Blocks.{added, block_at};
ghost use Rattle.cm_repo.specs.BlocksInside.{FindsAlso};
ghost use Rattle.cm_repo.specs.Urls.{key_of};
ghost use Rattle.cm_repo.specs.declared.fault.RepoFault.TheVariants.{Memory};
ghost use Rattle.cm_repo.specs.declared.fault.UrlFault.TheVariants as url_fault;

use crate::alike::is_alike;
use crate::urls::key;
use crate::{RepoFault, UrlFault};
use cm_names::{Bytes, Text};
use indexmap::IndexMap;
use std::alloc::Global;
use std::marker::Model;

/// What stands under a key.
#[derive(Drop)]
pub(crate) struct KeptBlock {
    /// The bytes of the manifest.
    pub bytes: Bytes,
    /// Whether the block came under the very text that is its key.
    pub verbatim: bool,
}

/// The key of a block.
#[derive(Drop)]
struct BlockKey {
    /// The text of the block's URL.
    text: Text,
    /// Whether the block came under this very text.
    verbatim: bool,
}

/// The text of an absolute URL, and the bytes that stand under it.
#[derive(Drop)]
pub struct ResolvedUrl<'a> {
    /// The URL's text, which names the manifest.
    pub url: Text,
    /// The bytes of the block that has this key. `None` where there is none.
    pub bytes: Option<&'a Bytes>,
}

/// The bytes of manifests by the text of their URLs, in the order in which they came.
///
/// Contracts see it as the list of its blocks, each a key and its bytes.
#[derive(Drop)]
pub struct Repository {
    pub(crate) alloc: Global,
    blocks: IndexMap<String, KeptBlock>,
}

impl Model for Repository {
    ghost use Rattle.std.specs.Prelude.{All};
    ghost use Rattle.cm_repo.specs.Blocks.{Blocks, blocks_of, IsOwnKey};

    ghost Value = { Blocks };

    ghost view = { λ r. blocks_of r.blocks.entries };

    ghost invariant = { λ r. All IsOwnKey r.blocks.entries };
}

impl Repository {
    /// The empty repository, which takes no memory.
    pub fn new(alloc: Global) -> Repository
        ensures { result ≡ [] }
    {
        Repository {
            alloc,
            blocks: IndexMap::new(alloc),
        }
    }

    /// The bytes under a key: the text of an absolute URL, as [`absolute`](crate::absolute) gives
    /// it. `None` where no block has that key.
    pub fn find(&self, url: &str) -> Option<&Bytes>
        ensures { option_copied result ≡ block_at self.now url.now }
    {
        match self.blocks.get(url) {
            Some(block) => Some(&block.bytes),
            None => None,
        }
    }

    /// The bytes of the block that came under this very text, which is its key then.
    pub(crate) fn find_verbatim(&self, url: &str) -> Option<&Bytes>
        ensures key { IfSome result (λ bytes. key_of url.now ≡ Ok url.now) }
        ensures found { IfSome result (λ bytes. block_at self.now url.now ≡ Some bytes.now) }
    {
        let Some(block) = self.blocks.get(url) else {
            return None;
        };
        if !block.verbatim {
            return None;
        }
        Some(&block.bytes)
    }

    /// Whether the last block tells that the text of this URL is this very one.
    fn tells(&self, url: &str) -> bool
        ensures { IsTrue result → key_of url.now ≡ Ok url.now }
    {
        match self.blocks.last() {
            Some((known, block)) => block.verbatim && is_alike(known.as_str(), url),
            None => false,
        }
    }

    /// The key of a block of this URL, which mostly is told by the block before.
    fn key_of_block(&self, url: &str) -> Result<BlockKey, UrlFault>
        ensures ok { IfOk result (λ key. key_of url.now ≡ Ok key.text) }
        ensures own { IfOk result (λ key. IsTrue key.verbatim → key_of key.text ≡ Ok key.text) }
        ensures err { IfErr result (λ fault. IsRepoRefusal url_fault.Memory fault (key_of url.now)) }
    {
        if self.tells(url) {
            let text = Text::from_str(self.alloc, url)?;
            return Ok(BlockKey {
                text,
                verbatim: true,
            });
        }
        let text = key(self.alloc, url)?;
        let verbatim = is_same(text.as_str(), url);
        Ok(BlockKey { text, verbatim })
    }

    /// Puts a block last, under the text of its URL as the URL Standard writes it.
    ///
    /// A block that is refused is dropped, and the repository is as before. The faults are tried
    /// in this order:
    ///
    /// - `BadUrl` where `url` isn't an absolute URL, and where its text is longer than 4,096 bytes,
    ///   as it may be where spaces were written `%20`, or has a byte that isn't a printing one of
    ///   ASCII, as the space in `foo:a b#x`;
    /// - `NoFragment` where the URL has no fragment or an empty one;
    /// - `Repeated` where a block has that key;
    /// - `Memory`.
    pub fn add(&mut self, url: &str, bytes: Bytes) -> Result<(), RepoFault>
        ensures ok { OnOk result (added self.old url.now bytes ≡ Ok self.new) }
        ensures found { OnOk result (FindsAlso self.old self.new url.now bytes) }
        ensures refused { IfErr result (λ fault.
            IsRepoRefusal Memory fault (added self.old url.now bytes)) }
        ensures unchanged { OnErr result (self.new ≡ self.old) }
    {
        let BlockKey { text, verbatim } = self.key_of_block(url)?;
        if self.blocks.contains_key(text.as_str()) {
            return Err(RepoFault::Repeated);
        }
        let text = string_of(text)?;
        self.blocks.insert(text, KeptBlock { bytes, verbatim })?;
        Ok(())
    }
}

/// Whether a key is the very text that was given for it.
fn is_same(key: &str, url: &str) -> bool
    ensures { IsTrue result → key.now ≡ url.now }
{
    key == url
}

/// The key as the string by which the map finds it.
fn string_of(key: Text) -> Result<String, RepoFault>
    ensures ok { IfOk result (λ text. string_bytes text ≡ key) }
    ensures err { IfErr result (λ fault. fault ≡ Memory) }
{
    match key.into_string() {
        Ok(text) => Ok(text),
        Err(_) => Err(RepoFault::Memory),
    }
}
