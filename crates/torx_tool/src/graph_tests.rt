//! Worked documents: GraphML texts, and what each is read as or why it is refused.
use crate::table::{bytes_of, cell, is_case};
use crate::tests::answers;
use graphml_text::read_graphml;
use lts_base::RawLts;
use std::alloc::{AllocError, Global};
use std::process::Abort;
use std::test::Fail;

/// The system as an Aldebaran file, with its labels as they stand.
pub fn described(alloc: Global, raw: &RawLts) -> Result<Vec<u8>, AllocError> {
    let start = raw.start();
    let states = raw.states();
    let count = raw.moves().count();
    let mut text = Vec::new(alloc);
    let head = format!(in alloc; "des ({start},{count},{states})\n")?;
    text.extend_from_slice(head.as_bytes())?;
    for place in 0..count {
        let m = raw.moves().at(place);
        let from = m.from;
        let to = m.to;
        let front = format!(in alloc; "({from},\"")?;
        text.extend_from_slice(front.as_bytes())?;
        text.extend_from_slice(label(raw, m.label))?;
        let back = format!(in alloc; "\",{to})\n")?;
        text.extend_from_slice(back.as_bytes())?;
    }
    Ok(text)
}

fn label(raw: &RawLts, number: Option<u32>) -> &[u8] {
    match number {
        None => b"tau",
        Some(number) => match raw.labels().as_slice().get(number as usize) {
            Some(text) => text.as_slice(),
            None => b"?",
        },
    }
}

/// What the content is read as, or the text of its fault.
fn answer(alloc: Global, content: &[u8]) -> Result<Vec<u8>, AllocError> {
    match read_graphml(alloc, content) {
        Ok(raw) => described(alloc, &raw),
        Err(error) => {
            let text = format!(in alloc; "{error}")?;
            Vec::from_slice(alloc, text.as_bytes())
        }
    }
}

/// Reads the document of each case, and compares.
fn reads<R: Abort>(rt: &R, alloc: Global, table: &str) -> Result<(), Fail> {
    for case in table.lines() {
        if is_case(case) {
            let got = answer(alloc, bytes_of(alloc, cell(case, 0))?.as_slice())?;
            let want = bytes_of(alloc, cell(case, 1))?;
            assert_eq!(rt; got.as_slice(), want.as_slice(), "{case}");
        }
    }
    Ok(())
}

/// One text between two others that stand so often.
fn repeated(
    alloc: Global,
    front: &str,
    one: &str,
    times: u32,
    back: &str,
) -> Result<Vec<u8>, AllocError> {
    let mut text = Vec::new(alloc);
    text.extend_from_slice(front.as_bytes())?;
    for _ in 0..times {
        text.extend_from_slice(one.as_bytes())?;
    }
    text.extend_from_slice(back.as_bytes())?;
    Ok(text)
}

/// Documents, and what they are read as.
const WORKED: &str = r#"
<?xml version="1.0" encoding="UTF-8" standalone="no"?>\n<graphml xmlns:y="http://www.yworks.com/xml/graphml">\n<key for="edge" id="d10" yfiles.type="edgegraphics"/>\n<graph edgedefault="directed" id="G">\n<node id="n0"/>\n<node id="n1"/>\n<edge id="e0" source="n0" target="n1"><data key="d10"><y:PolyLineEdge><y:EdgeLabel alignment="center">?a &amp; b<y:LabelModel/></y:EdgeLabel></y:PolyLineEdge></data></edge>\n</graph>\n</graphml>\n | des (0,1,2)\n(0,"?a & b",1)\n
<graphml><graph/></graphml> | no-graph
<!DOCTYPE g><graphml/> | doctype 0
<graphml><graph><node id="a"/><node id="a"/></graph></graphml> | double-node 30
<graphml><graph><node id="a"/><edge source="a" target="a"/></graph></graphml> | no-label 30
<graphml><graph edgedefault="undirected"><node id="a"/><edge source="a" target="a"/></graph></graphml> | undirected 55
<graphml><key id="s" for="node" attr.name="start"/><key id="l" attr.name="label"/><graph><node id="a"/><node id="b"><data key="s">true</data></node><edge source="b" target="a"><data key="l">!x</data></edge></graph></graphml> | des (1,1,2)\n(1,"!x",0)\n
"#;

#[test]
fn reads_worked_documents(rt: HostRuntime) -> Result<(), Fail> {
    reads(&rt, rt.alloc(), WORKED)
}

/// Documents, and what they are read as.
const ALONE_FIRST: &str = r#"
 | malformed 0
< | malformed 0
<graphml | malformed 0
<graphml> | malformed 9
<graphml></graphm> | malformed 9
</graphml> | malformed 0
<graph/> | malformed 0
x<graphml/> | malformed 0
<graphml/>x | malformed 10
<graphml/><graphml/> | malformed 10
<graphml>&</graphml> | malformed 9
<graphml>&x;</graphml> | malformed 9
&lt;<graphml/> | malformed 0
<graphml><!DOCTYPE x></graphml> | doctype 9
<graphml a="<"/> | malformed 0
<graphml a="&"/> | malformed 0
<graphml a="1"b="2"/> | malformed 0
<graphml a="1" a="2"/> | malformed 0
<graphml a=1/> | malformed 0
<graphml / > | malformed 0
<1/> | malformed 0
<graphml><!-x--></graphml> | malformed 9
"#;

#[test]
fn refuses_each_fault_alone_first(rt: HostRuntime) -> Result<(), Fail> {
    reads(&rt, rt.alloc(), ALONE_FIRST)
}

/// Documents, and what they are read as.
const ALONE_SECOND: &str = r#"
<graphml><![CDATA[</graphml> | malformed 9
<graphml><!--</graphml> | malformed 9
<graphml><?x</graphml> | malformed 9
<graphml><graph><node/></graph></graphml> | malformed 16
<graphml><graph><node id="a"/><edge source="a"/></graph></graphml> | malformed 30
<graphml><graph><node id="a"/><edge target="a"/></graph></graphml> | malformed 30
<graphml><key id="l" for="edge" attr.name="label"/><graph><node id="a"/><node id="b"/><edge source="a" target="b"><data key="l">a\01b</data></edge></graph></graphml> | malformed 86
<graphml><graph><hyperedge/></graph></graphml> | hyperedge 16
<graphml><graph><node id="a"/><node id="c"><port/></node></graph></graphml> | port 43
<graphml><key id="l" for="edge" attr.name="label"/><graph><node id="a"/><node id="b"/><edge source="a" target="b" directed="false"><data key="l">x</data></edge></graph></graphml> | undirected 86
<graphml><graph><node id="a"/><node id="b"/><node id="a"/></graph></graphml> | double-node 44
<graphml><graph><node id="a"/><node id="b"/><edge source="a" target="b"/></graph></graphml> | no-label 44
<graphml><key id="l" for="edge" attr.name="label"/><graph><node id="a"/><node id="b"/><edge source="a" target="c"><data key="l">x</data></edge></graph></graphml> | unknown-node 86
<graphml><key id="l" for="edge" attr.name="label"/><graph><node id="a"/><node id="b"/><edge source="c" target="b"><data key="l">x</data></edge></graph></graphml> | unknown-node 86
<graphml/> | no-graph
<graphml><graph></graph></graphml> | no-graph
<graphml><graph><node id="a"/></graph></graphml> | des (0,0,1)\n
<graphml><graph/><graph/></graphml> | second-graph 17
<graphml><graph><graph/></graph></graphml> | second-graph 16
<?xml version="1.0" encoding="latin-1"?><graphml/> | encoding
<?xml version="1.0?><graphml/> | malformed 0
<?xml a="1" a="2"?><graphml/> | malformed 0
<?xmlx?><graphml/> | no-graph
"#;

#[test]
fn refuses_each_fault_alone_second(rt: HostRuntime) -> Result<(), Fail> {
    reads(&rt, rt.alloc(), ALONE_SECOND)
}

/// Documents, and what they are read as.
const PAIRS: &str = r#"
<graphml><graph><edge directed="false"/></graph></graphml> | malformed 16
<graphml><graph><node/></graph></graphml> | malformed 16
<graphml><graph><node id="a"/><edge source="a" target="a" directed="false"><port/></edge></graph></graphml> | undirected 30
<graphml><graph><a><graph/><hyperedge/></a></graph></graphml> | second-graph 19
<graphml><graph><node id="a"/><node id="b"/><x:graph/><hyperedge/></graph></graphml> | second-graph 44
<graphml><graph><node id="a"/><node id="b"/><edge source="a" target="b" directed="false" directed="true"/></graph></graphml> | malformed 44
<graphml><graph><node id="a"/><node id="a" id="a"/></graph></graphml> | malformed 30
<graphml><graph><node id="a"/><edge source="c" target="c"/></graph></graphml> | no-label 30
<graphml><key id="l" for="edge" attr.name="label"/><graph><node id="a"/><node id="b"/><edge source="a" target="c"><data key="l">a\01b</data></edge></graph></graphml> | malformed 86
<graphml><key id="l" for="edge" attr.name="label"/><graph><node id="a"/><node id="b"/><edge source="a" target="c"><data key="l">x</data></edge><edge source="a" target="b"/></graph></graphml> | no-label 143
<graphml><key id="l" for="edge" attr.name="label"/><graph><node id="a"/><node id="b"/><edge source="a" target="c"><data key="l">x</data></edge></graph></graphml>x | malformed 161
<graphml><key id="l" for="edge" attr.name="label"/><graph><node id="a"/><node id="b"/><edge source="a" target="c"><data key="l">x</data></edge><node id="a"/></graph></graphml> | double-node 143
<graphml><graph></graphml> | malformed 16
<graphml><key id="l" for="edge" attr.name="label"/><graph><node id="a"/><node id="b"/><edge source="a" target="c"><data key="l">x</data></edge><edge source="d" target="b"><data key="l">x</data></edge></graph></graphml> | unknown-node 86
<graphml><graph/>x&y</graphml> | malformed 18
<?xml encoding="latin-1" encoding="x"?><graphml/> | malformed 0
<?xml encoding="latin-1" x?><graphml/> | malformed 0
<!DOCTYPE | doctype 0
<graphml/><!DOCTYPE g> | doctype 10
"#;

#[test]
fn tells_the_first_of_two_faults(rt: HostRuntime) -> Result<(), Fail> {
    reads(&rt, rt.alloc(), PAIRS)
}

/// Documents, and what they are read as.
const PASSED_OVER: &str = r#"
<!--c--><graphml/> | no-graph
<?i?><graphml/> | no-graph
\20\t\r\n<graphml/>\n | no-graph
<graphml/><!--c--><?i?>\20 | no-graph
<![CDATA[x]]><graphml/> | malformed 0
<graphml/><![CDATA[ ]]> | malformed 10
<graphml/><![CDATA[]]> | malformed 10
<!----><graphml/> | no-graph
<!--><graphml/> | malformed 0
<!--->--><graphml/> | no-graph
<?><graphml/> | malformed 0
<?>?><graphml/> | no-graph
<graphml><graph><!--<node/>--><node id="a"/><?n <node/>?></graph></graphml> | des (0,0,1)\n
<graphml><graph>text &lt; <![CDATA[<node/>]]><node id="a"/></graph></graphml> | des (0,0,1)\n
<graphml><!--</graphml>--></graphml> | no-graph
<graphml><graph><node id="a"/><a>]]> > </a ></graph></graphml> | des (0,0,1)\n
<graphml><graph><node id="a"/><node id="b"/><edge source="a" target="b"><d><EdgeLabel>x<!--y-->z</EdgeLabel></d></edge></graph></graphml> | des (0,1,2)\n(0,"xz",1)\n
<graphml><graph><node id="a"/><node id="b"/><edge source="a" target="b"><d><EdgeLabel>x<?y?>z</EdgeLabel></d></edge></graph></graphml> | des (0,1,2)\n(0,"xz",1)\n
<graphml><graph><node id="a"/><node id="b"/><edge source="a" target="b"><d><EdgeLabel><![CDATA[<x>&amp;]]>y</EdgeLabel></d></edge></graph></graphml> | des (0,1,2)\n(0,"<x>&amp;y",1)\n
<graphml><key id="l" for="edge" attr.name="label"/><graph><node id="a"/><node id="b"/><edge source="a" target="b"><data key="l"><!--y-->x<?z?> <![CDATA[y]]></data></edge></graph></graphml> | des (0,1,2)\n(0,"x y",1)\n
<graphml><key id="l" for="edge" attr.name="label"/><graph><node id="a"/><node id="b"/><edge source="a" target="b"><data key="l">x<b>y</b>z</data></edge></graph></graphml> | des (0,1,2)\n(0,"xz",1)\n
<graphml><key id="s" for="node" attr.name="start"/><graph><node id="a"><data key="s">t<!--x-->r<![CDATA[ue]]></data></node></graph></graphml> | des (0,0,1)\n
<graphml><key id="l" for="edge" attr.name="label"/><graph><node id="a"/><node id="b"/><edge source="a" target="b"><!--x--><data key="l"><?y?>x</data></edge></graph></graphml> | des (0,1,2)\n(0,"x",1)\n
<graphml><key id="l" attr.name="label"><default>z</default></key><graph><node id="a"/><node id="b"/><edge source="a" target="b"><data key="l">x</data></edge></graph></graphml> | des (0,1,2)\n(0,"x",1)\n
"#;

#[test]
fn passes_over_comments_instructions_and_sections(rt: HostRuntime) -> Result<(), Fail> {
    reads(&rt, rt.alloc(), PASSED_OVER)
}

/// Documents, and what they are read as.
const REFERENCES: &str = r#"
<graphml><key id="l" for="edge" attr.name="label"/><graph><node id="a"/><node id="b"/><edge source="a" target="b"><data key="l">&lt;&gt;&amp;&apos;&quot;</data></edge></graph></graphml> | des (0,1,2)\n(0,"<>&'"",1)\n
<graphml><key id="l" for="edge" attr.name="label"/><graph><node id="a"/><node id="b"/><edge source="a" target="b"><data key="l">&#97;&#x62;&#x20AC;&#x1F600;</data></edge></graph></graphml> | des (0,1,2)\n(0,"ab€😀",1)\n
<graphml><key id="l" for="edge" attr.name="label"/><graph><node id="a"/><node id="b"/><edge source="a" target="b"><data key="l"> &#32;x&#9;y&#10;&#13;</data></edge></graph></graphml> | des (0,1,2)\n(0,"x y",1)\n
<graphml><key id="l" for="edge" attr.name="label"/><graph><node id="a"/><node id="b"/><edge source="a" target="b"><data key="l">&#0;</data></edge></graph></graphml> | malformed 128
<graphml><key id="l" for="edge" attr.name="label"/><graph><node id="a"/><node id="b"/><edge source="a" target="b"><data key="l">&#xD800;</data></edge></graph></graphml> | malformed 128
<graphml><key id="l" for="edge" attr.name="label"/><graph><node id="a"/><node id="b"/><edge source="a" target="b"><data key="l">&#x110000;</data></edge></graph></graphml> | malformed 128
<graphml><key id="l" for="edge" attr.name="label"/><graph><node id="a"/><node id="b"/><edge source="a" target="b"><data key="l">&#x;</data></edge></graph></graphml> | malformed 128
<graphml><key id="l" for="edge" attr.name="label"/><graph><node id="a"/><node id="b"/><edge source="a" target="b"><data key="l">&#;</data></edge></graph></graphml> | malformed 128
<graphml><key id="l" for="edge" attr.name="label"/><graph><node id="a"/><node id="b"/><edge source="a" target="b"><data key="l">&#1a;</data></edge></graph></graphml> | malformed 128
<graphml><key id="l" for="edge" attr.name="label"/><graph><node id="a"/><node id="b"/><edge source="a" target="b"><data key="l">&#X41;</data></edge></graph></graphml> | malformed 128
<graphml><key id="l" for="edge" attr.name="label"/><graph><node id="a"/><node id="b"/><edge source="a" target="b"><data key="l">&lt</data></edge></graph></graphml> | malformed 128
<graphml><key id="l" for="edge" attr.name="label"/><graph><node id="a"/><node id="b"/><edge source="a" target="b"><data key="l">&LT;</data></edge></graph></graphml> | malformed 128
<graphml><key id="l" for="edge" attr.name="label"/><graph><node id="a"/><node id="b"/><edge source="a" target="b"><data key="l">&;</data></edge></graph></graphml> | malformed 128
<graphml><key id="l" for="edge" attr.name="label"/><graph><node id="a"/><node id="b"/><edge source="a" target="b"><data key="l">&#00000000000000000000000065;</data></edge></graph></graphml> | des (0,1,2)\n(0,"A",1)\n
<graphml><key id="l" for="edge" attr.name="label"/><graph><node id="a"/><node id="b"/><edge source="a" target="b"><data key="l">&#99999999999999999999999;</data></edge></graph></graphml> | malformed 128
<graphml><key id="l" for="edge" attr.name="label"/><graph><node id="a"/><node id="b"/><edge source="a" target="b"><data key="l">&#1;</data></edge></graph></graphml> | malformed 86
<graphml><key id="l" for="edge" attr.name="label"/><graph><node id="&#97;"/><node id="b&lt;"/><edge source="a" target="b&#60;"><data key="l">x</data></edge></graph></graphml> | des (0,1,2)\n(0,"x",1)\n
<graphml><graph><node id="a"/><node id="&#97;"/></graph></graphml> | double-node 30
<graphml><key id="l" for="edge" attr.name="label"/><graph><node id='"'/><node id="'"/><edge source="&quot;" target="&apos;"><data key="l">x</data></edge></graph></graphml> | des (0,1,2)\n(0,"x",1)\n
<graphml><key id="&#108;" attr.name="l&#97;bel"/><graph><node id="a"/><node id="b"/><edge source="a" target="b"><data key="l">x</data></edge></graph></graphml> | des (0,1,2)\n(0,"x",1)\n
<graphml><key id="l" for="edge" attr.name="label"/><graph><node id="a"/><node id="b"/><edge source="a" target="b" directed="t&#114;ue"><data key="l">x</data></edge></graph></graphml> | des (0,1,2)\n(0,"x",1)\n
<graphml><graph><node id="&bad;"/></graph></graphml> | malformed 16
"#;

#[test]
fn resolves_references(rt: HostRuntime) -> Result<(), Fail> {
    reads(&rt, rt.alloc(), REFERENCES)
}

/// Documents, and what they are read as.
const DECLARED: &str = r#"
\ef\bb\bf<graphml/> | no-graph
\ef\bb\bf\ef\bb\bf<graphml/> | malformed 3
\20\ef\bb\bf<graphml/> | malformed 1
\ef\bb\bf<graphml><graph><node id="a"/></graph></graphml> | des (0,0,1)\n
<?xml?><graphml><graph><node id="a"/></graph></graphml> | des (0,0,1)\n
<?xml version="1.0" encoding="utf-8"?><graphml><graph><node id="a"/></graph></graphml> | des (0,0,1)\n
<?xml encoding="Utf-8" ?><graphml><graph><node id="a"/></graph></graphml> | des (0,0,1)\n
<?xml Encoding="x"?><graphml><graph><node id="a"/></graph></graphml> | des (0,0,1)\n
\ef\bb\bf<?xml encoding="x"?><graphml><graph><node id="a"/></graph></graphml> | encoding
\ef\bb\bf<?xml x?><graphml><graph><node id="a"/></graph></graphml> | malformed 3
<?xml encoding="&#85;TF-8"?><graphml><graph><node id="a"/></graph></graphml> | des (0,0,1)\n
<?xml encoding="?>"?><graphml><graph><node id="a"/></graph></graphml> | malformed 0
<?xml encoding="UTF-8"?><?xml encoding="x"?><graphml><graph><node id="a"/></graph></graphml> | des (0,0,1)\n
\20<?xml encoding="x"?><graphml><graph><node id="a"/></graph></graphml> | des (0,0,1)\n
<?XML encoding="x"?><graphml><graph><node id="a"/></graph></graphml> | des (0,0,1)\n
<?xml:x encoding="x"?><graphml><graph><node id="a"/></graph></graphml> | des (0,0,1)\n
<?xml encoding='UTF-16'?> | encoding
<?xml encoding="x" | malformed 0
"#;

#[test]
fn reads_marks_and_declarations(rt: HostRuntime) -> Result<(), Fail> {
    reads(&rt, rt.alloc(), DECLARED)
}

/// Documents, and what they are read as.
const LOCAL_NAMES: &str = r#"
<g:graphml><g:graph><g:node id="a"/></g:graph></g:graphml> | des (0,0,1)\n
<a:b:graphml/> | malformed 0
<:graphml><:graph><:node id="a"/></:graph></:graphml> | des (0,0,1)\n
<graphml:/> | malformed 0
<x:graphml></y:graphml> | malformed 11
<graphml></graphml \n> | no-graph
<graphml></ graphml> | malformed 9
<Graphml/> | malformed 0
<graphml><graph><node x:id="a"/></graph></graphml> | malformed 16
<graphml><graph><y:node id="a"/><é:node id="b"/></graph></graphml> | des (0,0,2)\n
<graphml\n\t><graph\r/></graphml> | no-graph
<graphml x = 'a' y= "'"/> | no-graph
<graphml><key id="l" for="edge" attr.name="label"/><graph><node id="a"/><node id="b"/><edge source="a" target="b"><q:data key="l">x</q:data></edge></graph></graphml> | des (0,1,2)\n(0,"x",1)\n
<graphml><graph><node id="a"/><node id="b"/><edge source="a" target="b"><q:EdgeLabel>x</q:EdgeLabel></edge></graph></graphml> | des (0,1,2)\n(0,"x",1)\n
<graphml><graph><node id="a"/><node id="b"/><edge source="a" target="b"><edgelabel>x</edgelabel></edge></graph></graphml> | no-label 44
<a-1.b/> | malformed 0
<-a/> | malformed 0
"#;

#[test]
fn knows_elements_by_local_names(rt: HostRuntime) -> Result<(), Fail> {
    reads(&rt, rt.alloc(), LOCAL_NAMES)
}

/// Documents, and what they are read as.
const GRAPHS: &str = r#"
<graphml><a><graph><node id="a"/></graph></a></graphml> | no-graph
<graphml><a><graph/></a><graph><node id="a"/></graph></graphml> | second-graph 24
<graphml><graph><node id="a"><graph/></node></graph></graphml> | second-graph 29
<graphml><graph><node id="a"><node id="b"/><edge/></node></graph></graphml> | des (0,0,1)\n
<graphml><graph><node id="a"/><node id="b"/><edge source="a" target="b"><node/><edge/><EdgeLabel>x</EdgeLabel></edge></graph></graphml> | des (0,1,2)\n(0,"x",1)\n
<graphml><hyperedge/><port/><node/><edge/><graph><node id="a"/></graph><hyperedge/><port/></graphml> | des (0,0,1)\n
<graphml><graph><a><b><hyperedge/></b></a></graph></graphml> | hyperedge 22
<graphml><graph><a><x:port/></a></graph></graphml> | port 19
<graphml><key id="l" for="edge" attr.name="label"/><graph edgedefault="undirected"><node id="a"/><node id="b"/><edge source="a" target="b"><data key="l">x</data></edge></graph></graphml> | undirected 111
<graphml><key id="l" for="edge" attr.name="label"/><graph edgedefault="undirected"><node id="a"/><node id="b"/><edge source="a" target="b" directed="true"><data key="l">x</data></edge></graph></graphml> | des (0,1,2)\n(0,"x",1)\n
<graphml><key id="l" for="edge" attr.name="label"/><graph><node id="a"/><node id="b"/><edge source="a" target="b" directed="TRUE"><data key="l">x</data></edge></graph></graphml> | undirected 86
<graphml><key id="l" for="edge" attr.name="label"/><graph edgedefault="Undirected"><node id="a"/><node id="b"/><edge source="a" target="b"><data key="l">x</data></edge></graph></graphml> | des (0,1,2)\n(0,"x",1)\n
<graphml><key id="l" for="edge" attr.name="label"/><graph><edge source="a" target="b"><data key="l">x</data></edge><node id="a"/><node id="b"/></graph></graphml> | des (0,1,2)\n(0,"x",1)\n
<graphml><key id="l" for="edge" attr.name="label"/><graph><edge source="a" target="c"><data key="l">x</data></edge><node id="a"/><node id="b"/><node id="c"/></graph></graphml> | des (0,1,3)\n(0,"x",2)\n
"#;

#[test]
fn reads_one_graph(rt: HostRuntime) -> Result<(), Fail> {
    reads(&rt, rt.alloc(), GRAPHS)
}

/// Documents, and what they are read as.
const LABELS: &str = r#"
<graphml><key id="l" for="edge" attr.name="label"/><graph><node id="a"/><node id="b"/><edge source="a" target="b"><data key="l">d</data><EdgeLabel>e</EdgeLabel></edge></graph></graphml> | des (0,1,2)\n(0,"e",1)\n
<graphml><key id="l" for="edge" attr.name="label"/><graph><node id="a"/><node id="b"/><edge source="a" target="b"><EdgeLabel> </EdgeLabel><data key="l">d</data></edge></graph></graphml> | des (0,1,2)\n(0,"d",1)\n
<graphml><key id="l" for="edge" attr.name="label"/><graph><node id="a"/><node id="b"/><edge source="a" target="b"><EdgeLabel/><x><EdgeLabel>f</EdgeLabel></x><EdgeLabel>g</EdgeLabel></edge></graph></graphml> | des (0,1,2)\n(0,"f",1)\n
<graphml><graph><node id="a"/><node id="b"/><edge source="a" target="b"><EdgeLabel>o<EdgeLabel>in</EdgeLabel>ut</EdgeLabel></edge></graph></graphml> | des (0,1,2)\n(0,"out",1)\n
<graphml><graph><node id="a"/><node id="b"/><edge source="a" target="b"><EdgeLabel> <EdgeLabel>in</EdgeLabel> </EdgeLabel></edge></graph></graphml> | des (0,1,2)\n(0,"in",1)\n
<graphml><key id="l" for="edge" attr.name="label"/><graph><node id="a"/><node id="b"/><edge source="a" target="b"><data key="l"> </data><data key="m">no</data><data key="l">d</data><data key="l">e</data></edge></graph></graphml> | des (0,1,2)\n(0,"d",1)\n
<graphml><key id="l" for="edge" attr.name="label"/><graph><node id="a"/><node id="b"/><edge source="a" target="b"><x><data key="l">d</data></x></edge></graph></graphml> | no-label 86
<graphml><key id="l" for="edge" attr.name="label"/><graph><node id="a"/><node id="b"/><edge source="a" target="b"><data key="l"><b>d</b></data></edge></graph></graphml> | no-label 86
<graphml><key id="l" for="edge" attr.name="label"/><graph><node id="a"/><node id="b"/><edge source="a" target="b"><data key="l">i</data></edge><edge source="a" target="b"><data key="l">tau</data></edge><edge source="a" target="b"><data key="l"> tau </data></edge><edge source="a" target="b"><data key="l">Tau</data></edge><edge source="a" target="b"><data key="l">i i</data></edge></graph></graphml> | des (0,5,2)\n(0,"tau",1)\n(0,"tau",1)\n(0,"tau",1)\n(0,"Tau",1)\n(0,"i i",1)\n
<graphml><key id="l" for="edge" attr.name="label"/><graph><node id="a"/><node id="b"/><edge source="a" target="b"><data key="l">a\tb\nc\r\nd  e</data></edge></graph></graphml> | des (0,1,2)\n(0,"a b c  d  e",1)\n
<graphml><key id="l" for="edge" attr.name="label"/><graph><node id="a"/><node id="b"/><edge source="a" target="b"><data key="l">\7f\c2\80</data></edge></graph></graphml> | des (0,1,2)\n(0,"\7f\c2\80",1)\n
<graphml><key id="l" for="edge" attr.name="label"/><graph><node id="a"/><node id="b"/><edge source="a" target="b"><data key="l"> \c2\a0x </data></edge></graph></graphml> | des (0,1,2)\n(0,"\c2\a0x",1)\n
"#;

#[test]
fn takes_the_first_label(rt: HostRuntime) -> Result<(), Fail> {
    reads(&rt, rt.alloc(), LABELS)
}

/// Documents, and what they are read as.
const KEYS: &str = r#"
<graphml><key id="l" attr.name="LABEL"/><graph><node id="a"/><node id="b"/><edge source="a" target="b"><data key="l">x</data></edge></graph></graphml> | des (0,1,2)\n(0,"x",1)\n
<graphml><key id="l" for="all" attr.name="label"/><graph><node id="a"/><node id="b"/><edge source="a" target="b"><data key="l">x</data></edge></graph></graphml> | des (0,1,2)\n(0,"x",1)\n
<graphml><key id="l" for="" attr.name="label"/><graph><node id="a"/><node id="b"/><edge source="a" target="b"><data key="l">x</data></edge></graph></graphml> | no-label 82
<graphml><key id="l" for="node" attr.name="label"/><graph><node id="a"/><node id="b"/><edge source="a" target="b"><data key="l">x</data></edge></graph></graphml> | no-label 86
<graphml><key attr.name="label"/><graph><node id="a"/><node id="b"/><edge source="a" target="b"><data key="l">x</data></edge></graph></graphml> | no-label 68
<graphml><key id="l"/><graph><node id="a"/><node id="b"/><edge source="a" target="b"><data key="l">x</data></edge></graph></graphml> | no-label 57
<graphml><graph><node id="a"/><node id="b"/><edge source="a" target="b"><data key="l">x</data></edge></graph><key id="l" for="edge" attr.name="label"/></graphml> | no-label 44
<graphml><a><key id="l" for="edge" attr.name="label"/></a><graph><node id="a"/><node id="b"/><edge source="a" target="b"><data key="l">x</data></edge></graph></graphml> | no-label 93
<graphml><key id="m" attr.name="label"/><key id="l" for="edge" attr.name="label"/><graph><node id="a"/><node id="b"/><edge source="a" target="b"><data key="l">x</data></edge></graph></graphml> | des (0,1,2)\n(0,"x",1)\n
<graphml><key id="s" attr.name="Start"/><graph><node id="a"/><node id="b"><data key="s">true</data></node></graph></graphml> | des (1,0,2)\n
<graphml><key id="s" for="all" attr.name="start"/><graph><node id="a"/><node id="b"><data key="s">true</data></node></graph></graphml> | des (1,0,2)\n
<graphml><key id="s" for="edge" attr.name="start"/><graph><node id="a"/><node id="b"><data key="s">true</data></node></graph></graphml> | des (0,0,2)\n
<graphml><key id="s" for="node" attr.name="start"/><graph><node id="a"/><node id="b"><data key="s"> tr&#117;e\n</data></node><node id="c"><data key="s">true</data></node></graph></graphml> | des (1,0,3)\n
<graphml><key id="s" for="node" attr.name="start"/><graph><node id="a"/><node id="b"><data key="s">True</data></node></graph></graphml> | des (0,0,2)\n
<graphml><key id="s" for="node" attr.name="start"/><graph><node id="a"/><node id="b"><x><data key="s">true</data></x></node></graph></graphml> | des (0,0,2)\n
<graphml><key id="s" for="node" attr.name="start"/><graph><node id="a"/><node id="b"><data>true</data><data key="s">false</data><data key="s">true</data></node></graph></graphml> | des (1,0,2)\n
<graphml><key id="s" for="node" attr.name="start"/><graph><node id="a"/><node id="b"><data key="s"><v>true</v></data></node></graph></graphml> | des (0,0,2)\n
"#;

#[test]
fn knows_keys(rt: HostRuntime) -> Result<(), Fail> {
    reads(&rt, rt.alloc(), KEYS)
}

/// Documents, and what they are read as.
const NOT_UTF_8: &str = r#"
\ff | not-utf8 0
<graphml>é\c3</graphml> | not-utf8 11
<graphml>\e2\82 | not-utf8 9
<!DOCTYPE g>\80 | not-utf8 12
"#;

#[test]
fn tells_where_utf_8_ends(rt: HostRuntime) -> Result<(), Fail> {
    reads(&rt, rt.alloc(), NOT_UTF_8)
}

#[test]
fn reads_to_depth_64(rt: HostRuntime) -> Result<(), Fail> {
    let alloc = rt.alloc();
    // the 63 elements in the root end, and the content has no graph
    let ends = repeated(alloc, "", "</a>", 63, "</graphml>")?;
    let mut deep = repeated(alloc, "<graphml>", "<a>", 63, "")?;
    deep.extend_from_slice(&ends)?;
    assert_eq!(&rt; answer(alloc, &deep)?.as_slice(), b"no-graph".as_slice());
    let deeper = repeated(alloc, "<graphml>", "<a>", 64, "")?;
    assert_eq!(&rt;
        answer(alloc, &deeper)?.as_slice(),
        b"too-deep 198".as_slice()
    );
    // a tag that isn't in the form comes before its depth, and its depth before a second graph
    let faulty = repeated(alloc, "<graphml>", "<a>", 63, "<a b>")?;
    assert_eq!(&rt;
        answer(alloc, &faulty)?.as_slice(),
        b"malformed 198".as_slice()
    );
    let second = repeated(alloc, "<graphml>", "<graph>", 1, "")?;
    assert_eq!(&rt;
        answer(alloc, &second)?.as_slice(),
        b"malformed 16".as_slice()
    );
    Ok(())
}

#[test]
fn reads_labels_of_1024_bytes(rt: HostRuntime) -> Result<(), Fail> {
    let alloc = rt.alloc();
    let front =
        "<graphml><key id=\"l\" attr.name=\"label\"/><graph><node id=\"a\"/><edge source=\"a\" target=\"a\"><data key=\"l\">";
    let back = "</data></edge></graph></graphml>";
    let want = repeated(alloc, "des (0,1,1)\n(0,\"", "x", 1024, "\",0)\n")?;
    let whole = repeated(alloc, front, "x", 1024, back)?;
    assert_eq!(&rt; answer(alloc, &whole)?.as_slice(), want.as_slice());
    let spaced = repeated(
        alloc,
        front,
        "x",
        1024,
        "&#32;\n</data></edge></graph></graphml>",
    )?;
    assert_eq!(&rt; answer(alloc, &spaced)?.as_slice(), want.as_slice());
    let long = repeated(alloc, front, "x", 1025, back)?;
    assert_eq!(&rt;
        answer(alloc, &long)?.as_slice(),
        b"label-long 61".as_slice()
    );
    let faulty = repeated(
        alloc,
        front,
        "x",
        1025,
        "&#1;</data></edge></graph></graphml>",
    )?;
    assert_eq!(&rt;
        answer(alloc, &faulty)?.as_slice(),
        b"malformed 61".as_slice()
    );
    Ok(())
}

/// Documents, and what they are read as.
const ATTRIBUTES: &str = r#"
<graphml a0='' a1='' a2='' a3='' a4='' a5='' a6='' a7='' a8='' a9='' a10='' a11='' a12='' a13='' a14='' a15='' a16='' a17=''><graph/></graphml> | no-graph
<graphml a0='' a1='' a2='' a3='' a4='' a5='' a6='' a7='' a8='' a9='' a10='' a11='' a12='' a13='' a14='' a15='' a16='' a0=''/> | malformed 0
"#;

#[test]
fn compares_many_attributes(rt: HostRuntime) -> Result<(), Fail> {
    reads(&rt, rt.alloc(), ATTRIBUTES)
}

/// One system, drawn and written, under names of both kinds.
const FILES: &str = r#"
drawn.graphml | <graphml><key id='l' for='edge' attr.name='label'/><graph><node id='a'/><node id='b'/><edge source='a' target='b'><data key='l'>?coin</data></edge><edge source='b' target='a'><data key='l'>!tea</data></edge></graph></graphml>
drawn.aut | <graphml><key id='l' for='edge' attr.name='label'/><graph><node id='a'/><node id='b'/><edge source='a' target='b'><data key='l'>?coin</data></edge><edge source='b' target='a'><data key='l'>!tea</data></edge></graph></graphml>
written.aut | des (0,2,2)\n(0,"?coin",1)\n(1,"!tea",0)\n
written.graphml | des (0,2,2)\n(0,"?coin",1)\n(1,"!tea",0)\n
empty.graphml | <graphml><graph/></graphml>
"#;

/// Words, text and status.
const NAMED: &str = r#"
check drawn.graphml written.aut | conforms pairs=2\n | 0
check written.aut drawn.graphml | conforms pairs=2\n | 0
outs drawn.graphml | states 0\nshows delta\ninput ?coin\n | 0
angelic drawn.graphml | des (0,3,2)\n(0,"?coin",1)\n(1,"?coin",1)\n(1,"!tea",0)\n | 0
check written.graphml drawn.graphml | bad written.graphml malformed 0\n | 4
check drawn.aut drawn.graphml | bad drawn.aut header\n | 4
outs empty.graphml | bad empty.graphml no-graph\n | 4
outs .graphml | fault .graphml\n | 5
"#;

/// A file is read by its name, in each command.
#[test]
fn reads_files_by_their_names(rt: HostRuntime) -> Result<(), Fail> {
    answers(&rt, rt.alloc(), FILES, NAMED)
}
