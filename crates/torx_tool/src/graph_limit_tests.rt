//! Documents of more nodes and edges than a system may have.
use graphml_text::read_graphml;
use std::alloc::{AllocError, Global};
use std::test::Fail;

/// A document of so many nodes with ids of their own, and no edge.
fn nodes(alloc: Global, count: u32) -> Result<Vec<u8>, AllocError> {
    let mut text = Vec::from_slice(alloc, b"<graphml><graph>")?;
    for id in 0..count {
        let node = format!(in alloc; "<node id=\"n{id}\"/>")?;
        text.extend_from_slice(node.as_bytes())?;
    }
    text.extend_from_slice(b"</graph></graphml>")?;
    Ok(text)
}

/// A document of one node and so many edges from it to itself.
fn edges(alloc: Global, count: u32) -> Result<Vec<u8>, AllocError> {
    let mut text = Vec::from_slice(
        alloc,
        b"<graphml><key id=\"\" attr.name=\"label\"/><graph><node id=\"\"/>",
    )?;
    for _ in 0..count {
        text.extend_from_slice(b"<edge source=\"\" target=\"\"><data key=\"\">x</data></edge>")?;
    }
    text.extend_from_slice(b"</graph></graphml>")?;
    Ok(text)
}

/// The text of the fault of a content, or none.
fn fault(alloc: Global, content: &[u8]) -> Result<Vec<u8>, AllocError> {
    match read_graphml(alloc, content) {
        Ok(_) => Ok(Vec::new(alloc)),
        Err(error) => {
            let text = format!(in alloc; "{error}")?;
            Vec::from_slice(alloc, text.as_bytes())
        }
    }
}

#[test]
fn refuses_node_65537(rt: HostRuntime) -> Result<(), Fail> {
    let alloc = rt.alloc();
    for (count, want) in [(65_536, ""), (65_537, "too-many-states")] {
        let content = nodes(alloc, count)?;
        let got = fault(alloc, &content)?;
        assert_eq!(&rt; got.as_slice(), want.as_bytes());
    }
    Ok(())
}

#[test]
fn refuses_edge_1048577(rt: HostRuntime) -> Result<(), Fail> {
    let alloc = rt.alloc();
    let content = edges(alloc, 1_048_577)?;
    let got = fault(alloc, &content)?;
    assert_eq!(&rt; got.as_slice(), b"too-many-moves".as_slice());
    Ok(())
}
