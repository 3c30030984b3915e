// What the survey of a small volume tells, worked out from its blocks.
ghost use Rattle.std.specs.Prelude.{◌<◌, IfSome, length};

use crate::node::{Node, NodeId};
use crate::path::Path;
use crate::small_volume::{
    blocks, directory, directory_with, file, named, root_with_pointer, survey_over,
};
use crate::surveyed::Survey;
use std::alloc::Global;
use std::test::Fail;
use udf_field::Addr;

fn at(block: u32) -> Addr {
    Addr { part: 0, block }
}

// The number of the kept entry at a block.
fn number_at(survey: &Survey, block: u32) -> Option<NodeId>
    ensures { IfSome result (λ id. id.0 < length survey.now.nodes) }
{
    let id = survey.find(at(block))?;
    if id.0 < survey.kept() { Some(id) } else { None }
}

// The kept entry at a block.
fn node_at(survey: &Survey, block: u32) -> Option<Node> {
    let id = number_at(survey, block)?;
    Some(*survey.node(id))
}

// What is written in place of the content of the kept entry at a block.
fn mended_at(survey: &Survey, block: u32) -> Option<&[u8]> {
    survey.mended(number_at(survey, block)?)
}

// The number of the stream directory of the kept entry at a block.
fn pointer_at(survey: &Survey, block: u32) -> Option<NodeId> {
    survey.pointer(number_at(survey, block)?)
}

// The first child of the kept entry at a block.
fn first_child_at(survey: &Survey, block: u32) -> Option<NodeId> {
    survey.first_child(number_at(survey, block)?)
}

// The next sibling of the kept entry at a block.
fn next_sibling_at(survey: &Survey, block: u32) -> Option<NodeId> {
    survey.next_sibling(number_at(survey, block)?)
}

// Which of blocks 2 to 6 are claimed.
fn claimed(survey: &Survey) -> [bool; 5] {
    [
        survey.claimed(at(2)),
        survey.claimed(at(3)),
        survey.claimed(at(4)),
        survey.claimed(at(5)),
        survey.claimed(at(6)),
    ]
}

// A whole entry at a block that the root names, or the root, by its level, kept length, link count and identifier; directories
// alone keep something.
fn node(block: u32, level: u64, kept_length: u64, links: u16, id: u64) -> Node {
    Node {
        at: at(block),
        level,
        directory: kept_length > 0,
        kept_length,
        whole: true,
        links,
        id,
        parent: NodeId(0),
        ordinary: true,
    }
}

// A directory at a block that a pointer names.
fn stream_node(block: u32) -> Node {
    Node {
        ordinary: false,
        ..node(block, 1, 80, 0, 0)
    }
}

// The path of the kept entry at a block.
fn path_at(alloc: Global, survey: &Survey, block: u32) -> Option<Path> {
    survey.path_of(alloc, number_at(survey, block)?).ok()
}

// How many steps lead to the kept entry at a block.
fn steps_at(survey: &Survey, block: u32) -> Option<u32> {
    Some(survey.steps(number_at(survey, block)?))
}

// The name of a step of a path.
fn name_in(path: &Path, i: u32) -> Option<&[u8]> {
    if i < path.len() {
        Some(path.name(i))
    } else {
        None
    }
}

// Neither pointer leads to a directory: what it names is not kept.
#[test]
fn pointers_to_files_are_not_kept(rt: HostRuntime) -> Result<(), Fail> {
    let blocks = blocks(512, &root_with_pointer(), &file(5), &file(6));
    let survey = survey_over(rt.alloc(), &blocks).ok_or("no survey")?;
    assert!(rt; survey.kept() == 2);
    assert!(rt; survey.root() == NodeId(0));
    assert!(rt; node_at(&survey, 3) == Some(node(3, 0, 80, 1, 0)));
    assert!(rt; node_at(&survey, 4) == Some(node(4, 1, 0, 1, 16)));
    assert!(rt; survey.find(at(2)) == None);
    assert!(rt; survey.find(at(5)) == None);
    assert!(rt; pointer_at(&survey, 3) == None);
    assert!(rt; survey.system() == None);
    assert!(rt; mended_at(&survey, 3) == None);
    assert!(rt; claimed(&survey) == [true, true, true, false, false]);
    Ok(())
}

// Both pointers lead to directories, whose FIDs name the file at block 4 too: a stream directory may state no link, and keeps
// its identifier.
#[test]
fn stream_directories_hang_on_the_root(rt: HostRuntime) -> Result<(), Fail> {
    let blocks = blocks(512, &root_with_pointer(), &directory(5), &directory(6));
    let survey = survey_over(rt.alloc(), &blocks).ok_or("no survey")?;
    assert!(rt; survey.kept() == 4);
    assert!(rt; node_at(&survey, 3) == Some(node(3, 0, 80, 1, 0)));
    assert!(rt; node_at(&survey, 4) == Some(node(4, 1, 0, 3, 16)));
    assert!(rt; node_at(&survey, 5) == Some(stream_node(5)));
    assert!(rt; node_at(&survey, 6) == Some(stream_node(6)));
    assert!(rt; pointer_at(&survey, 3) == survey.find(at(5)));
    assert!(rt; survey.system() == survey.find(at(6)));
    assert!(rt; mended_at(&survey, 5) == None);
    assert!(rt; claimed(&survey) == [true; 5]);
    Ok(())
}

// Of the root the stream directory is the first child, and the system stream directory the last; the file between them, which
// all three name, is a child of the root alone.
#[test]
fn children_stand_in_the_order_of_links(rt: HostRuntime) -> Result<(), Fail> {
    let blocks = blocks(512, &root_with_pointer(), &directory(5), &directory(6));
    let survey = survey_over(rt.alloc(), &blocks).ok_or("no survey")?;
    assert!(rt; first_child_at(&survey, 3) == survey.find(at(5)));
    assert!(rt; next_sibling_at(&survey, 5) == survey.find(at(4)));
    assert!(rt; next_sibling_at(&survey, 4) == survey.find(at(6)));
    assert!(rt; next_sibling_at(&survey, 6) == None);
    assert!(rt; next_sibling_at(&survey, 3) == None);
    assert!(rt; first_child_at(&survey, 5) == None);
    assert!(rt; first_child_at(&survey, 6) == None);
    Ok(())
}

// The root names a directory, which names the root: that FID goes, and the others of the directory stay. A pointer of length 0
// leads nowhere.
#[test]
fn link_to_the_root_is_mended(rt: HostRuntime) -> Result<(), Fail> {
    let root = directory_with(3, 0, &named(b'd', 5));
    let fifth = directory_with(5, 16, &named(b'r', 3));
    let blocks = blocks(0, &root, &fifth, &directory(6));
    let survey = survey_over(rt.alloc(), &blocks).ok_or("no survey")?;
    assert!(rt; survey.kept() == 3);
    assert!(rt; node_at(&survey, 3) == Some(node(3, 0, 120, 2, 0)));
    assert!(rt; node_at(&survey, 4) == Some(node(4, 1, 0, 2, 17)));
    assert!(rt; node_at(&survey, 5) == Some(node(5, 1, 120, 1, 16)));
    assert!(rt; survey.system() == None);
    assert!(rt; mended_at(&survey, 3) == None);
    assert!(rt; mended_at(&survey, 5) == Some(&fifth[216..296]));
    assert!(rt; claimed(&survey) == [true, true, true, true, false]);
    Ok(())
}

// A directory in a directory is two steps away; the file that both name, and the root too, is one.
#[test]
fn path_has_a_name_for_each_step(rt: HostRuntime) -> Result<(), Fail> {
    let root = directory_with(3, 0, &named(b'd', 5));
    let fifth = directory_with(5, 16, &named(b's', 6));
    let blocks = blocks(0, &root, &fifth, &directory(6));
    let survey = survey_over(rt.alloc(), &blocks).ok_or("no survey")?;
    assert!(rt; steps_at(&survey, 3) == Some(0));
    assert!(rt; steps_at(&survey, 4) == Some(1));
    assert!(rt; steps_at(&survey, 6) == Some(2));
    let path = path_at(rt.alloc(), &survey, 6).ok_or("no path")?;
    assert!(rt; path.len() == 2);
    assert!(rt; name_in(&path, 0) == Some(&[8, b'd']));
    assert!(rt; name_in(&path, 1) == Some(&[8, b's']));
    Ok(())
}
