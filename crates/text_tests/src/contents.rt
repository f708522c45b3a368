use db_text::{Attribute, Node, TextFail, read_elements};
use std::alloc::Global;
use std::test::Fail;

/// A text with every form.
const EVERY_FORM: &[u8] = b"\xEF\xBB\xBF<?xml version='1.0'?>
<!-- front -->
<one a=\"1\"
 b-2 = '&lt;\t&amp;\r\n\"'>
 <two/>
 <!-- <three/> --><four
 ><five e='&gt;&quot;&apos;'/></four >
</one>
";

fn read(alloc: Global) -> Result<Node, TextFail> {
    read_elements(alloc, EVERY_FORM)
}

fn is_element(node: &Node, name: &[u8], line: u32, attributes: usize, children: usize) -> bool {
    node.name.as_slice() == name
        && node.line == line
        && node.attributes.len() == attributes
        && node.children.len() == children
}

fn is_attribute(attribute: Option<&Attribute>, name: &[u8], value: &[u8]) -> bool {
    match attribute {
        None => false,
        Some(a) => a.name.as_slice() == name && a.value.as_slice() == value,
    }
}

/// Whether this is an element of a list.
fn is_child(
    nodes: &[Node],
    at: usize,
    name: &[u8],
    line: u32,
    attributes: usize,
    children: usize,
) -> bool {
    match nodes.get(at) {
        None => false,
        Some(node) => is_element(node, name, line, attributes, children),
    }
}

fn second_has_child(
    nodes: &[Node],
    name: &[u8],
    line: u32,
    attribute: &[u8],
    value: &[u8],
) -> bool {
    let Some(second) = nodes.get(1) else {
        return false;
    };
    let Some(child) = second.children.get(0) else {
        return false;
    };
    is_element(child, name, line, 1, 0) && is_attribute(child.attributes.get(0), attribute, value)
}

#[test]
fn elements_are_as_they_are_written(rt: HostRuntime) -> Result<(), Fail> {
    let node = read(rt.alloc())?;
    assert!(rt; is_element(&node, b"one", 3, 2, 2));
    assert!(rt; is_attribute(node.attributes.get(0), b"a", b"1"));
    assert!(rt; is_attribute(node.attributes.get(1), b"b-2", b"< &  \""));
    let nodes = node.children.as_slice();
    assert!(rt; is_child(nodes, 0, b"two", 6, 0, 0));
    assert!(rt; is_child(nodes, 1, b"four", 7, 0, 1));
    assert!(rt; second_has_child(nodes, b"five", 8, b"e", b">\"'"));
    Ok(())
}
