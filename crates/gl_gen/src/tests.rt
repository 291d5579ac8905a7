// The samples of one, two and three rows, whole.
use super::*;
use gl_outside::{File, Files};
use std::process::Abort;
use std::test::Fail;

// The number of rows, the manifest and the script.
type Row = (u32, &'static str, &'static str);

static SAMPLES: [Row; 3] = [
    (
        1,
        "{\"classes\":{\"App\":{\"actions\":{\"pick\":{\"do\":[{\"set\":\"rows\",\"to\":\"(updateWhere this.rows 'id' id 'on' true)\"}],\"params\":[\"id\"]}},\"fields\":{\"rows\":[{\"id\":0,\"t\":\"r0\"}]},\"template\":\"app.hbs\"},\"Row\":{\"template\":\"row.hbs\"}},\"root\":\"App\"}",
        "[{\"fire\":2,\"event\":\"click\"}\
         ,{\"set\":\"rows\",\"to\":[{\"id\":0,\"t\":\"r0\"}]}\
         ,{\"fire\":2,\"event\":\"click\"}\
         ,{\"set\":\"rows\",\"to\":[{\"id\":0,\"t\":\"r0\"}]}\
         ,{\"fire\":2,\"event\":\"click\"}\
         ,{\"set\":\"rows\",\"to\":[{\"id\":0,\"t\":\"r0\"}]}\
         ,{\"fire\":2,\"event\":\"click\"}\
         ,{\"set\":\"rows\",\"to\":[{\"id\":0,\"t\":\"r0\"}]}\
         ,{\"fire\":2,\"event\":\"click\"}\
         ,{\"set\":\"rows\",\"to\":[{\"id\":0,\"t\":\"r0\"}]}\
         ,{\"fire\":2,\"event\":\"click\"}\
         ,{\"set\":\"rows\",\"to\":[{\"id\":0,\"t\":\"r0\"}]}\
         ,{\"fire\":2,\"event\":\"click\"}\
         ,{\"set\":\"rows\",\"to\":[{\"id\":0,\"t\":\"r0\"}]}\
         ,{\"fire\":2,\"event\":\"click\"}\
         ,{\"set\":\"rows\",\"to\":[{\"id\":0,\"t\":\"r0\"}]}]",
    ),
    (
        2,
        "{\"classes\":{\"App\":{\"actions\":{\"pick\":{\"do\":[{\"set\":\"rows\",\"to\":\"(updateWhere this.rows 'id' id 'on' true)\"}],\"params\":[\"id\"]}},\"fields\":{\"rows\":[{\"id\":0,\"t\":\"r0\"},{\"id\":1,\"t\":\"r1\"}]},\"template\":\"app.hbs\"},\"Row\":{\"template\":\"row.hbs\"}},\"root\":\"App\"}",
        "[{\"fire\":2,\"event\":\"click\"}\
         ,{\"set\":\"rows\",\"to\":[{\"id\":1,\"t\":\"r1\"},{\"id\":0,\"t\":\"r0\"}]}\
         ,{\"fire\":2,\"event\":\"click\"}\
         ,{\"set\":\"rows\",\"to\":[{\"id\":1,\"t\":\"r1\"},{\"id\":0,\"t\":\"r0\"}]}\
         ,{\"fire\":2,\"event\":\"click\"}\
         ,{\"set\":\"rows\",\"to\":[{\"id\":1,\"t\":\"r1\"},{\"id\":0,\"t\":\"r0\"}]}\
         ,{\"fire\":2,\"event\":\"click\"}\
         ,{\"set\":\"rows\",\"to\":[{\"id\":1,\"t\":\"r1\"},{\"id\":0,\"t\":\"r0\"}]}\
         ,{\"fire\":2,\"event\":\"click\"}\
         ,{\"set\":\"rows\",\"to\":[{\"id\":1,\"t\":\"r1\"},{\"id\":0,\"t\":\"r0\"}]}\
         ,{\"fire\":2,\"event\":\"click\"}\
         ,{\"set\":\"rows\",\"to\":[{\"id\":1,\"t\":\"r1\"},{\"id\":0,\"t\":\"r0\"}]}\
         ,{\"fire\":2,\"event\":\"click\"}\
         ,{\"set\":\"rows\",\"to\":[{\"id\":1,\"t\":\"r1\"},{\"id\":0,\"t\":\"r0\"}]}\
         ,{\"fire\":2,\"event\":\"click\"}\
         ,{\"set\":\"rows\",\"to\":[{\"id\":1,\"t\":\"r1\"},{\"id\":0,\"t\":\"r0\"}]}]",
    ),
    (
        3,
        "{\"classes\":{\"App\":{\"actions\":{\"pick\":{\"do\":[{\"set\":\"rows\",\"to\":\"(updateWhere this.rows 'id' id 'on' true)\"}],\"params\":[\"id\"]}},\"fields\":{\"rows\":[{\"id\":0,\"t\":\"r0\"},{\"id\":1,\"t\":\"r1\"},{\"id\":2,\"t\":\"r2\"}]},\"template\":\"app.hbs\"},\"Row\":{\"template\":\"row.hbs\"}},\"root\":\"App\"}",
        "[{\"fire\":2,\"event\":\"click\"}\
         ,{\"set\":\"rows\",\"to\":[{\"id\":1,\"t\":\"r1\"},{\"id\":2,\"t\":\"r2\"},{\"id\":0,\"t\":\"r0\"}]}\
         ,{\"fire\":2,\"event\":\"click\"}\
         ,{\"set\":\"rows\",\"to\":[{\"id\":2,\"t\":\"r2\"},{\"id\":0,\"t\":\"r0\"},{\"id\":1,\"t\":\"r1\"}]}\
         ,{\"fire\":4,\"event\":\"click\"}\
         ,{\"set\":\"rows\",\"to\":[{\"id\":1,\"t\":\"r1\"},{\"id\":2,\"t\":\"r2\"},{\"id\":0,\"t\":\"r0\"}]}\
         ,{\"fire\":4,\"event\":\"click\"}\
         ,{\"set\":\"rows\",\"to\":[{\"id\":0,\"t\":\"r0\"},{\"id\":1,\"t\":\"r1\"},{\"id\":2,\"t\":\"r2\"}]}\
         ,{\"fire\":2,\"event\":\"click\"}\
         ,{\"set\":\"rows\",\"to\":[{\"id\":0,\"t\":\"r0\"},{\"id\":1,\"t\":\"r1\"},{\"id\":2,\"t\":\"r2\"}]}\
         ,{\"fire\":4,\"event\":\"click\"}\
         ,{\"set\":\"rows\",\"to\":[{\"id\":1,\"t\":\"r1\"},{\"id\":2,\"t\":\"r2\"},{\"id\":0,\"t\":\"r0\"}]}\
         ,{\"fire\":6,\"event\":\"click\"}\
         ,{\"set\":\"rows\",\"to\":[{\"id\":1,\"t\":\"r1\"},{\"id\":2,\"t\":\"r2\"},{\"id\":0,\"t\":\"r0\"}]}\
         ,{\"fire\":4,\"event\":\"click\"}\
         ,{\"set\":\"rows\",\"to\":[{\"id\":2,\"t\":\"r2\"},{\"id\":0,\"t\":\"r0\"},{\"id\":1,\"t\":\"r1\"}]}]",
    ),
];

static FILES: [(&str, &str); 2] = [
    (
        "app.hbs",
        "<ul>{{#each this.rows key=\"id\" as |r|}}<Row @r={{r}} @pick={{fn this.pick r.id}} />{{/each}}</ul>",
    ),
    (
        "row.hbs",
        "<li class={{if @r.on \"on\"}} {{on \"click\" @pick}}>{{@r.t}}</li>",
    ),
];

fn are_templates(rt: &impl Abort, templates: &Files) {
    assert_eq!(rt; templates.len(), 2);
    for (place, (name, text)) in FILES.iter().enumerate() {
        assert_eq!(rt; templates.get(place).map(File::name), Some(*name));
        assert_eq!(rt; templates.find(name), Some(text.as_bytes()));
    }
}

fn is_sample(rt: &impl Abort, whole: Sample, row: &Row) {
    let Sample {
        manifest,
        templates,
        script,
    } = whole;
    assert_eq!(rt; manifest.as_str(), row.1, "manifest {}", row.0);
    are_templates(rt, &templates);
    assert_eq!(rt; script.as_str(), row.2, "script {}", row.0);
}

#[test]
fn samples(rt: HostRuntime) -> Result<(), Fail> {
    for row in &SAMPLES {
        is_sample(&rt, sample(rt.alloc(), row.0)?, row);
    }
    Ok(())
}
